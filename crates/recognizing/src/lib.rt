// Recognizing: whether bytes are a lookup, and of which kind.
#![tactic(auto)]

ghost use Rattle.std.specs.Prelude.{◌≡◌, ◌<◌, ◌≤◌};
ghost use Rattle.words.specs.Words.{word_at};
ghost use Rattle.accepting.specs.Scanned.{Took, Counts};
ghost use Rattle.recognizing.specs.Recognized.{begun, count_at, Inside, ends_in, Opened, SingleTaken, LigatureTaken, Recognizing};

use accepting::Scanned;
use layouts::Kind;

// What both kinds begin with: type, flags and the one subtable's place; its format, where its coverage begins, and a count.
fn begun(kind: u16, format: u16, most: usize, bytes: &[u8]) -> Scanned
    requires { most < 65536 }
    ensures { Took (begun kind format most) (word_at bytes.now 2, count_at bytes.now) 14 bytes.now 0 result × Counts result most (word_at bytes.now 10) }
{
    let p = accepting::headed(kind, bytes)?;
    let q = accepting::exactly(&[format], bytes, p)?;
    accepting::counted(most, bytes, q)
}

// A single lookup: its substitutes, then its coverage, whose glyphs do not fall.
fn single(bytes: &[u8]) -> Scanned
    ensures { SingleTaken bytes.now result × Opened result bytes.now }
{
    // as many as a single lookup can have
    let p = begun(1, 2, 32764, bytes)?;
    let n = (usize::from(words::u16_at(bytes, 10)) - 6) / 2;
    let q = accepting::several(n, bytes, p)?;
    accepting::covered(0, n, bytes, q)
}

// A ligature lookup whose rules have `n` components: where its sets begin, then its coverage, whose glyphs rise, then the sets.
fn ligature(n: usize, bytes: &[u8]) -> Scanned
    requires { (2 ≤ n) × (n ≤ 3) }
    ensures { LigatureTaken n bytes.now result × Opened result bytes.now }
{
    // as many sets of one rule as can begin at bytes of 16 bits
    let p = begun(4, 1, (65531 + 2 * n) / (10 + 2 * n), bytes)?;
    let s = (usize::from(words::u16_at(bytes, 10)) - 6) / 2;
    let q = grouping::starts(n, s, bytes, p)?;
    accepting::covered(1, s, bytes, q)?;
    grouping::sets(n, s, bytes)
}

// Whether a scan came to its end with no word left of `len` bytes.
fn ends(scanned: Scanned, len: usize) -> bool
    requires { Inside scanned len }
    ensures { result ≡ ends_in scanned len }
{
    match scanned {
        Ok(p) => len - p < 2,
        Err(_) => false,
    }
}

// Of which kind a lookup is that the bytes are, if they are one.
pub fn recognize(bytes: &[u8]) -> Option<Kind>
    ensures { Recognizing bytes.now result }
{
    if bytes.len() % 2 != 0 {
        return None;
    }
    if ends(single(bytes), bytes.len()) {
        return Some(Kind::Single);
    }
    if ends(ligature(2, bytes), bytes.len()) {
        return Some(Kind::Ligature(2));
    }
    if ends(ligature(3, bytes), bytes.len()) {
        return Some(Kind::Ligature(3));
    }
    None
}
