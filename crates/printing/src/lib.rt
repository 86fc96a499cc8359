// What `joinline` prints, written to lent memory: the heading and a row for each letter of a joined line, or why there is none.
//
// Bytes that do not fit are left out. What is printed of a text always fits 8,208 bytes (crate `answers`, FitLaws).
#![tactic(auto)]

ghost use Rattle.std.specs.Prelude.{◌≡◌, ◌<◌, ◌≤◌};
ghost use Rattle.printing.specs.Printed.{glyph as glyph_of, numeral as numeral_of, places as places_of, name_of, row as row_of, rows as rows_of, heading as heading_of, printed, unreadable_text, refused_word_lem, refused_text};
ghost use Rattle.printing.specs.Writing.{Wrote, wrote, writes, filled};

const BLANK: u8 = 32;

const LINE_END: u8 = 10;

// Writes a byte, if it fits; answers the place behind it.
fn put(out: &mut [u8], at: usize, b: u8) -> usize
    ensures { Wrote out.new result ≡ wrote (Wrote out.old at) b }
{
    if at < out.len() {
        out[at] = b;
        return at + 1;
    }
    at
}

// Writes some bytes.
fn put_all(out: &mut [u8], at: usize, bytes: &[u8]) -> usize
    ensures { Wrote out.new result ≡ writes (Wrote out.old at) bytes.now }
{
    let mut k = at;
    for b in bytes {
        k = put(out, k, *b);
    }
    k
}

fn glyph(d: usize) -> u8
    requires { d < 16 }
    ensures { result ≡ glyph_of d }
{
    if d < 10 { 48 + d as u8 } else { 55 + d as u8 }
}

// Writes the last `w` digits of a number.
fn numeral(out: &mut [u8], at: usize, n: usize, base: usize, w: u8) -> usize
    requires { (0 < base) × (base ≤ 16) }
    ensures { Wrote out.new result ≡ writes (Wrote out.old at) (numeral_of base w n) }
{
    if w == 0 {
        return at;
    }
    let k = numeral(out, at, n / base, base, w - 1);
    put(out, k, glyph(n % base))
}

// How many digits a place has.
#[tactic(auto, unfolding(crate::specs::Printed::places))]
fn places(n: usize) -> u8
    ensures { result ≡ places_of n }
{
    match n {
        0..=9 => 1,
        10..=99 => 2,
        100..=999 => 3,
        1000..=9999 => 4,
        _ => 5,
    }
}

// The name of an action; none for a number that is no action's.
#[tactic(auto, unfolding(crate::specs::Printed::names))]
fn name(action: u8) -> &'static [u8]
    ensures { result.now ≡ name_of action }
{
    match action {
        0 => b"isol",
        1 => b"fina",
        2 => b"fin2",
        3 => b"fin3",
        4 => b"medi",
        5 => b"med2",
        6 => b"init",
        7 => b"none",
        8 => b"fixed",
        9 => b"repeating",
        _ => b"",
    }
}

// Writes a letter's row.
fn row(out: &mut [u8], at: usize, place: usize, code: u32, width: u8, action: u8) -> usize
    ensures { Wrote out.new result ≡ writes (Wrote out.old at) (row_of place code width action) }
{
    let a = numeral(out, at, place, 10, places(place));
    let b = put(out, a, BLANK);
    let c = numeral(out, b, code as usize, 16, width);
    let d = put(out, c, BLANK);
    let e = put_all(out, d, name(action));
    put(out, e, LINE_END)
}

// Writes the rows of a line.
fn rows(out: &mut [u8], at: usize, codes: &[u32], widths: &[u8], actions: &[u8]) -> usize
    ensures { Wrote out.new result ≡ writes (Wrote out.old at) (rows_of 0 codes.now widths.now actions.now) }
{
    let mut k = at;
    for i in 0..codes.len().min(widths.len()).min(actions.len()) {
        k = row(out, k, i, codes[i], widths[i], actions[i]);
    }
    k
}

// Writes the heading.
fn heading(out: &mut [u8]) -> usize
    ensures { Wrote out.new result ≡ writes (Wrote out.old 0) heading_of }
{
    put_all(out, 0, b"place code form\n")
}

// Writes all that is printed of a joined line from the start of the memory lent, as much of it as fits; answers how much that is.
pub fn print(codes: &[u32], widths: &[u8], actions: &[u8], out: &mut [u8]) -> usize
    ensures { Wrote out.new result ≡ filled out.old (printed codes.now widths.now actions.now) }
{
    let at = heading(out);
    rows(out, at, codes, widths, actions)
}

// Writes that a text is unreadable, likewise.
pub fn unreadable(out: &mut [u8]) -> usize
    ensures { Wrote out.new result ≡ filled out.old unreadable_text }
{
    put_all(out, 0, b"unreadable\n")
}

// Writes the word before a number of refusal.
fn refused_word(out: &mut [u8]) -> usize
    ensures { Wrote out.new result ≡ writes (Wrote out.old 0) refused_word_lem }
{
    put_all(out, 0, b"refused ")
}

// Writes that a line is refused, likewise.
pub fn refused(number: u8, out: &mut [u8]) -> usize
    ensures { Wrote out.new result ≡ filled out.old (refused_text number) }
{
    let n = usize::from(number);
    let a = refused_word(out);
    let b = numeral(out, a, n, 10, places(n));
    put(out, b, LINE_END)
}
