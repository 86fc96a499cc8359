// Words: big-endian 16-bit numbers in lent bytes.
#![tactic(auto)]

ghost use Rattle.std.specs.Prelude.{◌≡◌, ◌∷◌, [], ◌++◌, ◌+◌, ◌*◌, ◌≤◌, length, drop};
ghost use Rattle.words.specs.Words.{word_at, words_at, Wrote};

// Writes `w` at byte `at` of `area`, the high byte first, and says which byte comes then.
pub fn put_u16(w: u16, area: &mut [u8], at: usize) -> usize
    requires { at + 2 ≤ length area.old }
    ensures { Wrote area.old at (w ∷ []) area.new result [] }
{
    let [high, low] = w.to_be_bytes();
    area[at] = high;
    area[at + 1] = low;
    at + 2
}

// Writes words from byte `at` of `area` on, one after another, and says which byte comes then.
fn put_each(words: &[u16], area: &mut [u8], at: usize) -> usize
    requires { at + 2 * length words.now ≤ length area.old }
    ensures { Wrote area.old at words.now area.new result [] }
{
    let mut p = at;
    for w in words {
        p = put_u16(*w, area, p);
    }
    p
}

// The same for eight words that are a copy: no byte that is written is one of theirs, so that the compiler writes them at once.
fn put_eight(eight: [u16; 8], area: &mut [u8], at: usize) -> usize
    requires { at + 16 ≤ length area.old }
    ensures { Wrote area.old at eight area.new result [] }
{
    put_each(&eight, area, at)
}

// Writes all of `words` from byte `at` of `area` on, and says which byte comes then: eight at once, then what is left.
pub fn put_words(words: &[u16], area: &mut [u8], at: usize) -> usize
    requires { at + 2 * length words.now ≤ length area.old }
    ensures { Wrote area.old at words.now area.new result [] }
{
    let (eights, rest) = words.as_chunks::<8>();
    let mut p = at;
    for eight in eights {
        p = put_eight(*eight, area, p);
    }
    put_each(rest, area, p)
}

// The word at byte `at`.
pub fn u16_at(bytes: &[u8], at: usize) -> u16
    requires { at + 2 ≤ length bytes.now }
    ensures { result ≡ word_at bytes.now at }
{
    u16::from_be_bytes([bytes[at], bytes[at + 1]])
}

// Reads `n` words from byte `at` on into the first places of `column`: by their places, so that the compiler reads many at once.
pub fn get_words(bytes: &[u8], at: usize, n: usize, column: &mut [u16])
    requires { (at + 2 * n ≤ length bytes.now) × (n ≤ length column.old) }
    ensures { column.new ≡ words_at bytes.now at n ++ drop n column.old }
{
    for i in 0..n {
        column[i] = u16_at(bytes, at + 2 * i);
    }
}
