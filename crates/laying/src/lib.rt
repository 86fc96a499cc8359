// Laying: records of a line copied to where they come in the lent output.
#![tactic(auto)]

ghost use Rattle.runs.specs.Records.{columns_read, columns_mut_now, columns_mut_lent};
ghost use Rattle.laying.specs.Laid.{Keepable, PartKept};

use runs::Line;

// Fewer records than this are copied record by record, which takes fewer instructions then.
const FEW: usize = 8;

// Copies the `s` records that come from the `k`-th on in the order of the work, to the places from the `at`-th of `m` on.
#[inline(always)]
pub fn keep(
    rtl: bool,
    k: usize,
    s: usize,
    line: Line<'_>,
    m: usize,
    at: usize,
    to_glyphs: &mut [u32],
    to_widths: &mut [i32],
    to_categories: &mut [u8],
    to_ignorables: &mut [u8],
    to_actions: &mut [u8],
    to_advances: &mut [i32],
    to_offsets: &mut [i32],
)
    requires { Keepable k s (columns_read line)
        m at (columns_mut_now to_glyphs to_widths to_categories to_ignorables to_actions to_advances to_offsets) }
    ensures { PartKept rtl k s (columns_read line.entry)
        m at (columns_mut_lent to_glyphs to_widths to_categories to_ignorables to_actions to_advances to_offsets) }
{
    let i = runs::part(rtl, line.actions.len(), k, s);
    let o = runs::part(rtl, m, at, s);
    if s < FEW {
        copying::copy_records(
            i,
            s,
            line,
            o,
            to_glyphs,
            to_widths,
            to_categories,
            to_ignorables,
            to_actions,
            to_advances,
            to_offsets,
        );
    } else {
        copying::copy_columns(
            i,
            s,
            line,
            o,
            to_glyphs,
            to_widths,
            to_categories,
            to_ignorables,
            to_actions,
            to_advances,
            to_offsets,
        );
    }
}
