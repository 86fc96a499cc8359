// Placing: the tiles of a run and their copies, laid into the lent output one after the other.
#![tactic(auto)]

ghost use Rattle.std.specs.Prelude.{◌≡◌, cond, ◌+◌, ◌≤◌, eqb};
ghost use Rattle.letters.specs.Actions.{repeating};
ghost use Rattle.runs.specs.Records.{columns_read, columns_mut_now, columns_mut_lent};
ghost use Rattle.runs.specs.Stretched.{moved as moved_by, pieces, placed};
ghost use Rattle.copying.specs.Pasted.{Roomy};
ghost use Rattle.laying.specs.Laid.{LaidIn};
ghost use Rattle.placing.specs.Placed.{after, Placeable, RunPlaced};

use letters::{Action, Glyph};
use runs::{Line, Measured, Tile};

// Where the next tile starts, once one of this width is placed that overlaps by so much.
fn moved(rtl: bool, x: i32, width: i32, lap: i32) -> i32
    ensures { result ≡ moved_by rtl x width lap }
{
    if rtl {
        fitting::sat_add(fitting::sat_sub(x, width), lap)
    } else {
        fitting::sat_sub(fitting::sat_add(x, width), lap)
    }
}

// The offset of a tile that moves from `x` to `y`: right to left it moves first.
fn offset_of(rtl: bool, x: i32, y: i32) -> i32
    ensures { result ≡ cond rtl y x }
{
    if rtl { y } else { x }
}

// Places a tile and `times` copies of it, from the `at`-th place of `m` on and from the offset `start` on; says where the next tile starts.
fn place_tile(
    rtl: bool,
    tile: Tile,
    times: usize,
    start: i32,
    overlap: i32,
    m: usize,
    at: usize,
    to_glyphs: &mut [u32],
    to_widths: &mut [i32],
    to_categories: &mut [u8],
    to_ignorables: &mut [u8],
    to_actions: &mut [u8],
    to_advances: &mut [i32],
    to_offsets: &mut [i32],
) -> i32
    requires times_bound { at + (1 + times) ≤ m }
    requires roomy { Roomy m (columns_mut_now to_glyphs to_widths to_categories to_ignorables to_actions to_advances to_offsets) }
    ensures next { result ≡ after rtl start (pieces times overlap tile) }
    ensures placed { LaidIn rtl m at (placed rtl start (pieces times overlap tile))
        (columns_mut_lent to_glyphs to_widths to_categories to_ignorables to_actions to_advances to_offsets) }
{
    let width = tile.width;
    let end = at + 1 + times;
    let mut x = start;
    // a copy overlaps, the tile itself does not
    let mut lap: i32 = 0;
    for j in at..end {
        let o = runs::part(rtl, m, j, 1);
        let y = moved(rtl, x, width, lap);
        let offset = offset_of(rtl, x, y);
        to_glyphs[o] = tile.glyph.0;
        to_widths[o] = width;
        to_categories[o] = tile.category;
        to_ignorables[o] = tile.ignorable;
        to_actions[o] = tile.action;
        to_advances[o] = 0;
        to_offsets[o] = offset;
        x = y;
        lap = overlap;
    }
    x
}

// How many copies a tile gets.
fn times_of(action: u8, copies: usize) -> usize
    ensures { result ≡ cond (eqb action repeating) copies 0 }
{
    if action == Action::REPEATING.0 {
        copies
    } else {
        0
    }
}

// Places the run whose records come from the `k`-th on, from the `at`-th place of `m` on; says which place comes then.
pub fn place_run(
    rtl: bool,
    k: usize,
    run: Measured,
    line: Line<'_>,
    m: usize,
    at: usize,
    to_glyphs: &mut [u32],
    to_widths: &mut [i32],
    to_categories: &mut [u8],
    to_ignorables: &mut [u8],
    to_actions: &mut [u8],
    to_advances: &mut [i32],
    to_offsets: &mut [i32],
) -> usize
    requires { Placeable rtl k run
        (columns_read line)
        m at (columns_mut_now to_glyphs to_widths to_categories to_ignorables to_actions to_advances to_offsets) }
    ensures { RunPlaced rtl k run
        (columns_read line.entry)
        m at result (columns_mut_lent to_glyphs to_widths to_categories to_ignorables to_actions to_advances to_offsets) }
{
    let n = line.actions.len();
    let past = run.past;
    let copies = run.copies;
    let overlap = run.overlap;
    let mut x = run.start;
    let mut next = at;
    for i in k..past {
        let p = runs::part(rtl, n, i, 1);
        let action = line.actions[p];
        let times = times_of(action, copies);
        let width = runs::at(line.widths, p);
        let tile = Tile {
            glyph: Glyph(line.glyphs[p]),
            width,
            category: line.categories[p],
            ignorable: line.ignorables[p],
            action,
        };
        x = place_tile(
            rtl,
            tile,
            times,
            x,
            overlap,
            m,
            next,
            to_glyphs,
            to_widths,
            to_categories,
            to_ignorables,
            to_actions,
            to_advances,
            to_offsets,
        );
        next += 1 + times;
    }
    next
}
