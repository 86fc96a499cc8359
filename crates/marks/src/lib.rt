// Marks: the public call that reorders modifier marks (UTR 53) in a part of a line.
#![tactic(auto)]

ghost use Rattle.std.specs.Prelude.{◌≡◌, [], ◌∷◌, ◌++◌, ◌+◌, ◌<◌, ◌≤◌, length, take, drop};
ghost use Rattle.laws.specs.Lists.{front, behind};
ghost use Rattle.laws.specs.Rows.{first};
ghost use Rattle.refusals.specs.Numbers.{said};
ghost use Rattle.refusals.specs.Columns.{line_limit};
ghost use Rattle.blocks.specs.Marks.{mark};
ghost use Rattle.marks.specs.Modifiers.{modifier};
ghost use Rattle.marks.specs.Passes.{Over, reorder_classes, new_class_lem, moves, passes, ranges, numbered};
ghost use Rattle.marks.specs.Reordered.{reorder_request, classes_lent, marks_lent, line, listed, rows_of, Reordering};

use letters::Code;
use refusals::{Refusal, Verdict};

// A range of places, to the one before `to`.
#[derive(Clone, Copy, Debug, PartialEq, Eq)]
pub struct Range {
    pub from: usize,
    pub to: usize,
}

// The ranges that belong to one cluster now, in their order.
#[derive(Clone, Copy, Debug, PartialEq, Eq)]
pub enum Merged {
    Nothing,
    One(Range),
    Two(Range, Range),
}

// UTR 53's modifier combining marks.
const MODIFIER_COMBINING_MARKS: [u32; 14] = [
    0x0654, // ARABIC HAMZA ABOVE
    0x0655, // ARABIC HAMZA BELOW
    0x0658, // ARABIC MARK NOON GHUNNA
    0x06DC, // ARABIC SMALL HIGH SEEN
    0x06E3, // ARABIC SMALL LOW SEEN
    0x06E7, // ARABIC SMALL HIGH YEH
    0x06E8, // ARABIC SMALL HIGH NOON
    0x08CA, // ARABIC SMALL HIGH FARSI YEH
    0x08CB, // ARABIC SMALL HIGH YEH BARREE WITH TWO DOTS BELOW
    0x08CD, // ARABIC SMALL HIGH ZAH
    0x08CE, // ARABIC LARGE ROUND DOT ABOVE
    0x08CF, // ARABIC LARGE ROUND DOT BELOW
    0x08D3, // ARABIC SMALL LOW WAW
    0x08F3, // ARABIC SMALL HIGH WAW
];

// The classes of the two passes.
const CLASSES: [u8; 2] = [220, 230];

// The mark is one of the fourteen. The whole list is searched, and not to the first that is found as `contains` does: the compiler makes tests of single bits of that.
fn is_modifier(code: Code) -> bool
    ensures { result ≡ modifier code.0 }
{
    let mut found = false;
    for mark in &MODIFIER_COMBINING_MARKS {
        found |= *mark == code.0;
    }
    found
}

// The pass of a class moves a mark of this class if it is listed.
fn moved(code: Code, own: u8, class: u8) -> bool
    ensures { result ≡ moves class (mark code.0 own) }
{
    own == class && is_modifier(code)
}

// Gives the marks of the block of a class that begins at `i` their new number, and says where the block ends.
fn number_block(codes: &[u32], classes: &mut [u8], i: usize, class: u8, new: u8) -> usize
    requires codes_len { length codes.now ≡ length classes.old }
    requires i_in_bounds { i ≤ length codes.now }
    ensures ends { result ≡ i + length (front (moves class) (drop i (line (classes_lent codes classes).entry))) }
    ensures renumbered { let c = classes_lent codes classes in
        let rest = drop i (line c.entry) in
        line c.exit ≡ take i (line c.entry) ++ (numbered new (front (moves class) rest) ++ behind (moves class) rest) }
{
    for j in i..codes.len() {
        if !moved(Code(codes[j]), classes[j], class) {
            return j;
        }
        classes[j] = new;
    }
    codes.len()
}

// The number that the block of a class gets.
fn new_class(class: u8, low: u8, high: u8) -> u8
    ensures { result ≡ new_class_lem low high class }
{
    if class == 220 { low } else { high }
}

impl Merged {
    // With one range more: there are at most two.
    fn with(self, from: usize, to: usize) -> Merged
        requires { length (listed self) < 2 }
        ensures { listed result ≡ listed self ++ (Over from to ∷ []) }
    {
        let range = Range { from, to };
        match self {
            Merged::Nothing => Merged::One(range),
            Merged::One(first) => Merged::Two(first, range),
            Merged::Two(first, second) => Merged::Two(first, second),
        }
    }
}

// Both passes over a part that begins at `start`. A `for` over the two classes, proved too, took 20 instructions more a call: 115 with 4 marks, where
// this takes 95 and the Rust 104.
fn reorder(codes: &mut [u32], classes: &mut [u8], start: usize, low: u8, high: u8) -> Merged
    requires codes_len { length codes.old ≡ length classes.old }
    requires codes_bound { start + length codes.old ≤ line_limit }
    ensures merged { listed result ≡ ranges start reorder_classes (line (marks_lent codes classes).entry) }
    ensures moved { let c = marks_lent codes classes in
        line c.exit ≡ passes (new_class_lem low high) reorder_classes (line c.entry) }
{
    let end = codes.len();
    let mut merged = Merged::Nothing;
    let mut from = 0;
    let mut i = 0;
    let mut pass: usize = 0;
    'passes: while pass < 2 {
        let class = CLASSES[pass];
        loop {
            if end <= i {
                break 'passes;
            }
            if class <= classes[i] {
                break;
            }
            i += 1;
        }
        let j = number_block(codes, classes, i, class, new_class(class, low, high));
        if i != j {
            blocks::bring(&mut codes[..j], &mut classes[..j], from, i);
            merged = merged.with(start + from, start + j);
            from += j - i;
            i = j;
            pass += 1;
        } else {
            // here again, so that the proof has no two ways to join behind the choice
            pass += 1;
        }
    }
    merged
}

// The refusal of a part from `start` to `end` of two columns of `n` and `m` records.
fn refused(n: usize, m: usize, start: usize, end: usize) -> Verdict
    ensures { said result ≡ first (rows_of n m start end) }
{
    if n != m {
        return Err(Refusal::Uneven);
    }
    if refusals::LINE_LIMIT < n {
        return Err(Refusal::TooLong);
    }
    if (end < start) | (n < end) {
        return Err(Refusal::Place);
    }
    Ok(())
}

// Reorders the modifier marks of a part of a line: the blocks of classes 220 and 230 go to its front and get the lent classes `low` and `high`. Says which
// ranges have to be merged into one cluster each.
pub fn reorder_modifier_combining_marks(
    codes: &mut [u32],
    classes: &mut [u8],
    start: usize,
    end: usize,
    low: u8,
    high: u8,
) -> Result<Merged, Refusal>
    ensures { let c = marks_lent codes classes in
        Reordering (reorder_request start end low high) c.entry result c.exit }
{
    refused(codes.len(), classes.len(), start, end)?;
    Ok(reorder(
        &mut codes[start..end],
        &mut classes[start..end],
        start,
        low,
        high,
    ))
}
