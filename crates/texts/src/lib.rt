// The text form of `joinline`: a text is read in pieces of any size, and its entries are held in lent columns.
//
// `begin`, then `read_on` for each piece as it comes, then `close`. The state is a few numbers, so that a text of any length is read
// without being held: entries past the end of a column are counted and not stored.
#![tactic(auto)]

ghost use Rattle.std.specs.Prelude.{◌≡◌, List, ℕ, set};
ghost use Rattle.entries.specs.Steps.{start as start_of};
ghost use Rattle.texts.specs.Form.{Close, whole, columns_lent};
ghost use Rattle.texts.specs.Steps.{up as up_of, Hold, ended, stepped, read_on, finished, told_by, closed};

use entries::State;

const LINE_END: u8 = 10;

// One more line.
fn up(n: usize) -> usize
    ensures { result ≡ up_of n }
{
    n.saturating_add(1)
}

// Stores a number at its place, if the column has it.
fn store<T: Copy>(column: &mut [T], at: usize, x: T)
    ensures { column.new ≡ set column.old at x }
{
    if at < column.len() {
        column[at] = x;
    }
}

// A line end.
fn end_line(
    s: State,
    codes: &mut [u32],
    widths: &mut [u8],
    types: &mut [u8],
    categories: &mut [u8],
) -> State
    ensures { (columns_lent (Hold result) codes widths types categories).exit ≡ ended (columns_lent (Hold s) codes widths types categories).entry }
{
    let n = s.lines;
    let Some(e) = entries::said(s) else {
        return entries::OTHER;
    };
    store(codes, n, e.code);
    store(widths, n, e.width);
    store(types, n, e.kind);
    store(categories, n, e.category);
    entries::start(up(n))
}

// Any byte.
fn step(
    s: State,
    b: u8,
    codes: &mut [u32],
    widths: &mut [u8],
    types: &mut [u8],
    categories: &mut [u8],
) -> State
    ensures { (columns_lent (Hold result) codes widths types categories).exit ≡ stepped (columns_lent (Hold s) codes widths types categories).entry b }
{
    if b == LINE_END {
        return end_line(s, codes, widths, types, categories);
    }
    entries::within(s, b)
}

// Before the first byte of a text.
pub fn begin() -> State
    ensures { result ≡ start_of 0 }
{
    entries::start(0)
}

// Reads the next piece of a text.
pub fn read_on(
    s: State,
    piece: &[u8],
    codes: &mut [u32],
    widths: &mut [u8],
    types: &mut [u8],
    categories: &mut [u8],
) -> State
    ensures { (columns_lent (Hold result) codes widths types categories).exit ≡ read_on (columns_lent (Hold s) codes widths types categories).entry piece.now }
{
    let mut at = s;
    for b in piece {
        at = step(at, *b, codes, widths, types, categories);
    }
    at
}

// Closes a line that has begun.
fn finish(
    s: State,
    codes: &mut [u32],
    widths: &mut [u8],
    types: &mut [u8],
    categories: &mut [u8],
) -> State
    ensures { (columns_lent (Hold result) codes widths types categories).exit ≡ finished (columns_lent (Hold s) codes widths types categories).entry }
{
    if (s.field == 0) & (s.digits == 0) {
        return s;
    }
    end_line(s, codes, widths, types, categories)
}

// What a state says: how many lines there are, or nothing where one is of other form.
fn verdict(s: State) -> Option<usize>
    ensures { result ≡ told_by s }
{
    if s.field == 3 {
        return None;
    }
    Some(s.lines)
}

// The end of the text. Where the state and the columns are what reading a text from its beginning left, they come to what the definition by lines says of
// that text.
pub fn close(
    s: State,
    codes: &mut [u32],
    widths: &mut [u8],
    types: &mut [u8],
    categories: &mut [u8],
) -> Option<usize>
    ensures state { (columns_lent (Close result) codes widths types categories).exit ≡ closed (columns_lent (Hold s) codes widths types categories).entry }
    ensures text { let before = (columns_lent (Hold s) codes widths types categories).entry in
        let after = (columns_lent (Close result) codes widths types categories).exit in
        ((text c w t g : List ℕ) → before ≡ read_on (Hold (start_of 0) c w t g) text → after ≡ whole text c w t g) }
{
    verdict(finish(s, codes, widths, types, categories))
}
