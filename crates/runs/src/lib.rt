// Runs: the definition of the stretched line; a run and the word before it, measured.
#![tactic(auto)]

ghost use Rattle.std.specs.Prelude.{◌≡◌, true, ◌+◌, ◌<◌, ◌≤◌, length, get_or, pos};
ghost use Rattle.laws.specs.Lists.{member};
ghost use Rattle.refusals.specs.Columns.{line_limit, at_most};
ghost use Rattle.letters.specs.Actions.{repeating};
ghost use Rattle.runs.specs.Runs.{tile_action, word_categories, word_numbers};
ghost use Rattle.runs.specs.Stretched.{part_of};
ghost use Rattle.runs.specs.Records.{columns_read};
ghost use Rattle.runs.specs.Measured.{Even, NextRun, SumsAt, WordAt, MeasuredAt, StretchedLength};

use letters::{Action, Category, Glyph};

// The columns of a line, which are only read.
#[derive(Clone, Copy)]
pub struct Line<'a> {
    pub glyphs: &'a [u32],
    pub widths: &'a [i32],
    pub categories: &'a [u8],
    pub ignorables: &'a [u8],
    pub actions: &'a [u8],
    pub advances: &'a [i32],
    pub offsets: &'a [i32],
}

// What a copy of a record keeps.
#[derive(Clone, Copy)]
pub struct Tile {
    pub glyph: Glyph,
    pub width: i32,
    pub category: u8,
    pub ignorable: u8,
    pub action: u8,
}

// What a run comes to: the widths of its fixed tiles and of its repeating ones, how many of these it has, and the place past it.
#[derive(Clone, Copy, Debug, PartialEq, Eq)]
pub struct Sums {
    pub fixed: i32,
    pub repeating: i32,
    pub tiles: usize,
    pub past: usize,
}

// A run with the word before it: the place past it, its repeating tiles, how often each is copied, by how much each copy overlaps, and where the offsets start.
#[derive(Clone, Copy, Debug, PartialEq, Eq)]
pub struct Measured {
    pub past: usize,
    pub tiles: usize,
    pub copies: usize,
    pub overlap: i32,
    pub start: i32,
}

// The categories of a word's records.
const WORD_CATEGORIES: [u8; 14] = [
    Category::CN.0,
    Category::CO.0,
    Category::LM.0,
    Category::LO.0,
    Category::MC.0,
    Category::ME.0,
    Category::MN.0,
    Category::ND.0,
    Category::NL.0,
    Category::NO.0,
    Category::SC.0,
    Category::SK.0,
    Category::SM.0,
    Category::SO.0,
];

// The place, in a line of `n`, at which the `s` records begin that come from the `k`-th on in the order of the work.
pub fn part(rtl: bool, n: usize, k: usize, s: usize) -> usize
    requires { k + s ≤ n }
    ensures { result ≡ part_of rtl n k s }
{
    if rtl { n - k - s } else { k }
}

// An element of a column of signed numbers.
pub fn at(column: &[i32], i: usize) -> i32
    requires { i < length column.now }
    ensures { result ≡ get_or column.now i (pos 0) }
{
    column[i]
}

// Where the next run begins: its place in the order of the work, or the line's end.
pub fn next_run(rtl: bool, from: usize, actions: &[u8]) -> usize
    requires from_in_bounds { from ≤ length actions.now }
    requires actions_value { at_most repeating actions.now ≡ true }
    ensures { NextRun rtl from actions.now result }
{
    let n = actions.len();
    for k in from..n {
        // no action is above the repeating one
        if Action::FIXED.0 <= actions[part(rtl, n, k, 1)] {
            return k;
        }
    }
    n
}

// The run that begins at a place.
fn sums_at(rtl: bool, from: usize, line: Line<'_>) -> Sums
    requires from_in_bounds { from ≤ length line.actions.now }
    requires widths_len { length line.widths.now ≡ length line.actions.now }
    ensures { let l = columns_read line.entry in
        SumsAt rtl from l.widths l.actions result }
{
    let n = line.actions.len();
    let mut fixed: i32 = 0;
    let mut repeating: i32 = 0;
    let mut tiles: usize = 0;
    for k in from..n {
        let i = part(rtl, n, k, 1);
        let action = line.actions[i];
        if action == Action::FIXED.0 {
            fixed = fitting::sat_add(fixed, at(line.widths, i));
        } else if action == Action::REPEATING.0 {
            repeating = fitting::sat_add(repeating, at(line.widths, i));
            tiles += 1;
        } else {
            return Sums {
                fixed,
                repeating,
                tiles,
                past: k,
            };
        }
    }
    Sums {
        fixed,
        repeating,
        tiles,
        past: n,
    }
}

// The action is one of a run's.
fn is_tile(action: u8) -> bool
    ensures { result ≡ tile_action action }
{
    (action == Action::FIXED.0) | (action == Action::REPEATING.0)
}

// The category is one of a word's. The whole list is searched, and not to the first that is found: with `contains` a line of 8 records with tiles takes 3,054 instructions for 2,904.
fn is_word_category(category: u8) -> bool
    ensures { result ≡ member category word_categories }
{
    let mut found = false;
    for listed in &WORD_CATEGORIES {
        found |= *listed == category;
    }
    found
}

// A record with these numbers belongs to a word.
fn in_word(action: u8, category: u8, ignorable: u8) -> bool
    ensures { result ≡ word_numbers action category ignorable }
{
    !is_tile(action) && (ignorable != 0 || is_word_category(category))
}

// The advances together of the word that begins at a place.
fn word_at(rtl: bool, from: usize, line: Line<'_>) -> i32
    requires from_in_bounds { from ≤ length line.actions.now }
    requires categories_len { length line.categories.now ≡ length line.actions.now }
    requires ignorables_len { length line.ignorables.now ≡ length line.actions.now }
    requires advances_len { length line.advances.now ≡ length line.actions.now }
    ensures { let l = columns_read line.entry in
        WordAt rtl from l.categories l.ignorables l.actions l.advances result }
{
    let n = line.actions.len();
    let mut sum: i32 = 0;
    for k in from..n {
        let i = part(rtl, n, k, 1);
        if !in_word(line.actions[i], line.categories[i], line.ignorables[i]) {
            return sum;
        }
        sum = fitting::sat_add(sum, at(line.advances, i));
    }
    sum
}

// The run that begins at a place, with the word before it. Inlined: else the columns are read through memory, and a line of 8 records with tiles misses its bar.
#[inline(always)]
pub fn measured_at(rtl: bool, from: usize, line: Line<'_>) -> Measured
    requires from_in_bounds { from ≤ length line.actions.now }
    requires actions_len_bound { length line.actions.now ≤ line_limit }
    requires even { Even (columns_read line) }
    ensures { MeasuredAt rtl from (columns_read line.entry) result }
{
    let run = sums_at(rtl, from, line);
    let word = word_at(rtl, run.past, line);
    let fit = fitting::fill(fitting::sat_sub(word, run.fixed), run.repeating, run.tiles);
    Measured {
        past: run.past,
        tiles: run.tiles,
        copies: fit.copies,
        overlap: fit.overlap,
        start: fit.start,
    }
}

// How many records the stretched line has.
pub fn stretched_length(rtl: bool, line: Line<'_>) -> usize
    requires actions_len_bound { length line.actions.now ≤ line_limit }
    requires actions_value { at_most repeating line.actions.now ≡ true }
    requires even { Even (columns_read line) }
    ensures { StretchedLength rtl (columns_read line.entry) result }
{
    let n = line.actions.len();
    let mut total = n;
    // from run to run, whose places are known only as they are found: no `for`
    let mut k = next_run(rtl, 0, line.actions);
    while k < n {
        let run = measured_at(rtl, k, line);
        total += run.copies * run.tiles;
        k = next_run(rtl, run.past, line.actions);
    }
    total
}
