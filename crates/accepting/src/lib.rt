// Accepting: whether bytes are a lookup, word by word. Each function takes a part of a lookup from a place on, and says where it ends, or which word cannot stand.
#![tactic(auto)]

ghost use Rattle.std.specs.Prelude.{◌+◌, ◌-◌, ◌*◌, ◌/◌, ◌<◌, ◌≤◌, length};
ghost use Rattle.words.specs.Words.{word_at, words_at};
ghost use Rattle.scanning.specs.Scans.{several, rise};
ghost use Rattle.scanning.specs.Grammar.{headed, counted, covered};
ghost use Rattle.accepting.specs.Scanned.{Took, these, Counts};

// Why a scan stopped: where a word is that cannot stand; that the bytes end too soon.
#[derive(Clone, Copy, Debug, PartialEq, Eq)]
pub enum Fault {
    Wrong(usize),
    Short,
}

// What comes of scanning a part: where it ends.
pub type Scanned = Result<usize, Fault>;

// The very words `words`.
pub fn exactly(words: &[u16], bytes: &[u8], at: usize) -> Scanned
    requires { at ≤ length bytes.now }
    ensures { Took (these words.now) tt (at + 2 * length words.now) bytes.now at result }
{
    let mut p = at;
    for w in words {
        if bytes.len() - p < 2 {
            return Err(Fault::Short);
        }
        if words::u16_at(bytes, p) != *w {
            return Err(Fault::Wrong(p));
        }
        p += 2;
    }
    Ok(p)
}

// `n` words of any value.
pub fn several(n: usize, bytes: &[u8], at: usize) -> Scanned
    requires { at ≤ length bytes.now }
    ensures { Took (several n) (words_at bytes.now at n) (at + 2 * n) bytes.now at result }
{
    if (bytes.len() - at) / 2 < n {
        return Err(Fault::Short);
    }
    Ok(at + 2 * n)
}

// `n` glyphs, each at least `apart` above the one before it, with room for those behind it.
pub fn rise(apart: usize, n: usize, bytes: &[u8], at: usize) -> Scanned
    requires { (at ≤ length bytes.now) × (apart ≤ 1) × (n < 65536) }
    ensures { Took (rise apart n 0) (words_at bytes.now at n) (at + 2 * n) bytes.now at result }
{
    let mut low = 0;
    let mut high = 65535 - apart * n;
    for i in 0..n {
        let p = at + 2 * i;
        if bytes.len() - p < 2 {
            return Err(Fault::Short);
        }
        high += apart;
        let glyph = usize::from(words::u16_at(bytes, p));
        if (glyph < low) | (high < glyph) {
            return Err(Fault::Wrong(p));
        }
        low = glyph + apart;
    }
    Ok(at + 2 * n)
}

// A lookup's type, flags, and one subtable, which begins at byte 8.
pub fn headed(kind: u16, bytes: &[u8]) -> Scanned
    ensures { Took (headed kind) (word_at bytes.now 2) 8 bytes.now 0 result }
{
    let p = exactly(&[kind], bytes, 0)?;
    let q = several(1, bytes, p)?;
    exactly(&[1, 8], bytes, q)
}

// Where the coverage begins, behind at most `most` numbers, and how many these are.
pub fn counted(most: usize, bytes: &[u8], at: usize) -> Scanned
    requires { (at ≤ length bytes.now) × (most < 65536) }
    ensures { Took (counted most) ((word_at bytes.now at - 6) / 2) (at + 4) bytes.now at result × Counts result most (word_at bytes.now at) }
{
    if bytes.len() - at < 2 {
        return Err(Fault::Short);
    }
    let o = usize::from(words::u16_at(bytes, at));
    if (o < 6) | (o % 2 != 0) {
        return Err(Fault::Wrong(at));
    }
    let n = (o - 6) / 2;
    if most < n {
        return Err(Fault::Wrong(at));
    }
    exactly(&[n as u16], bytes, at + 2)
}

// A coverage of `n` glyphs.
pub fn covered(apart: usize, n: usize, bytes: &[u8], at: usize) -> Scanned
    requires { (at ≤ length bytes.now) × (apart ≤ 1) × (n < 65536) }
    ensures { Took (covered apart n) (words_at bytes.now (at + 4) n) (at + 4 + 2 * n) bytes.now at result }
{
    let p = exactly(&[1, n as u16], bytes, at)?;
    rise(apart, n, bytes, p)
}
