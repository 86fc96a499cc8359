// Stretching: the public call that stretches the recorded runs of a line.
#![tactic(auto)]

ghost use Rattle.std.specs.Prelude.{◌≡◌, true, ◌≤◌, length};
ghost use Rattle.refusals.specs.Columns.{line_limit, at_most};
ghost use Rattle.letters.specs.Actions.{repeating};
ghost use Rattle.runs.specs.Records.{columns_read, columns_lent, columns_mut_lent};
ghost use Rattle.runs.specs.Measured.{Even};
ghost use Rattle.stretching.specs.Stretching.{stretched_limit, stretch_request, new_line, unequal, lacking, NewLength, Judging, Stretching};

use letters::{Action, Category};
use refusals::Refusal;
use runs::Line;

// Records of a stretched line, at most.
const STRETCHED_LIMIT: usize = 16384;

// Some column of the line has another number of records than its actions.
fn differ(line: Line<'_>) -> bool
    ensures { result ≡ unequal (columns_read line.entry) }
{
    let n = line.actions.len();
    (line.glyphs.len() != n)
        | ((line.widths.len() != n)
            | ((line.categories.len() != n)
                | ((line.ignorables.len() != n)
                    | ((line.advances.len() != n) | (line.offsets.len() != n)))))
}

// Some column of the output is shorter than `n`.
fn lack(
    n: usize,
    glyphs: usize,
    widths: usize,
    categories: usize,
    ignorables: usize,
    actions: usize,
    advances: usize,
    offsets: usize,
) -> bool
    ensures { result ≡ lacking n glyphs widths categories ignorables actions advances offsets }
{
    (glyphs < n)
        | ((widths < n)
            | ((categories < n)
                | ((ignorables < n) | ((actions < n) | ((advances < n) | (offsets < n))))))
}

// How many records the new line has.
fn new_length(recorded: bool, rtl: bool, line: Line<'_>) -> usize
    requires actions_len_bound { (length line.actions.now ≤ line_limit) × (at_most repeating line.actions.now ≡ true) }
    requires even { Even (columns_read line) }
    ensures { NewLength recorded rtl (columns_read line.entry) result }
{
    if recorded {
        runs::stretched_length(rtl, line)
    } else {
        line.actions.len()
    }
}

// What the call answers, before anything is laid: all tests, and the length. The output's columns have so many places.
fn judge(
    recorded: bool,
    rtl: bool,
    line: Line<'_>,
    to_glyphs: usize,
    to_widths: usize,
    to_categories: usize,
    to_ignorables: usize,
    to_actions: usize,
    to_advances: usize,
    to_offsets: usize,
) -> Result<usize, Refusal>
    ensures { let q = stretch_request recorded rtl (columns_read line.entry) in
        let short = lacking (length (new_line q)) to_glyphs to_widths to_categories to_ignorables to_actions to_advances to_offsets in
        Judging stretched_limit q short result }
{
    if differ(line) {
        return Err(Refusal::Uneven);
    }
    if refusals::LINE_LIMIT < line.actions.len() {
        return Err(Refusal::TooLong);
    }
    if refusals::within(line.categories, Category::ZS.0)
        & refusals::within(line.actions, Action::REPEATING.0)
    {
        let n = new_length(recorded, rtl, line);
        if STRETCHED_LIMIT < n {
            return Err(Refusal::Stretched);
        }
        if lack(
            n,
            to_glyphs,
            to_widths,
            to_categories,
            to_ignorables,
            to_actions,
            to_advances,
            to_offsets,
        ) {
            return Err(Refusal::NoRoom);
        }
        Ok(n)
    } else {
        Err(Refusal::OutOfRange)
    }
}

// Stretches the recorded runs of a line, right to left or left to right, into the lent output; says how many records there are then. C hands each column over for itself. A line of which nothing was recorded is given as it is.
pub fn stretch(
    recorded: bool,
    rtl: bool,
    glyphs: &[u32],
    widths: &[i32],
    categories: &[u8],
    ignorables: &[u8],
    actions: &[u8],
    advances: &[i32],
    offsets: &[i32],
    to_glyphs: &mut [u32],
    to_widths: &mut [i32],
    to_categories: &mut [u8],
    to_ignorables: &mut [u8],
    to_actions: &mut [u8],
    to_advances: &mut [i32],
    to_offsets: &mut [i32],
) -> Result<usize, Refusal>
    ensures { let line = columns_lent glyphs widths categories ignorables actions advances offsets in
        let output = columns_mut_lent to_glyphs to_widths to_categories to_ignorables to_actions to_advances to_offsets in
        Stretching (stretch_request recorded rtl line.entry) output.entry result output.exit }
{
    let line = Line {
        glyphs,
        widths,
        categories,
        ignorables,
        actions,
        advances,
        offsets,
    };
    let n = judge(
        recorded,
        rtl,
        line,
        to_glyphs.len(),
        to_widths.len(),
        to_categories.len(),
        to_ignorables.len(),
        to_actions.len(),
        to_advances.len(),
        to_offsets.len(),
    )?;
    if recorded {
        writing::write(
            rtl,
            line,
            n,
            to_glyphs,
            to_widths,
            to_categories,
            to_ignorables,
            to_actions,
            to_advances,
            to_offsets,
        );
        Ok(n)
    } else {
        laying::keep(
            rtl,
            0,
            n,
            line,
            n,
            0,
            to_glyphs,
            to_widths,
            to_categories,
            to_ignorables,
            to_actions,
            to_advances,
            to_offsets,
        );
        Ok(n)
    }
}
