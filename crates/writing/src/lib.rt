// Writing: the stretched line, laid into the lent output.
#![tactic(auto)]

ghost use Rattle.runs.specs.Records.{columns_read, columns_mut_now, columns_mut_lent};
ghost use Rattle.writing.specs.Whole.{Writable, LineWritten};

use runs::Line;

// The whole work: the records before a run are kept, the run is placed, and so on to the end. The stretched line has `m` records.
pub fn write(
    rtl: bool,
    line: Line<'_>,
    m: usize,
    to_glyphs: &mut [u32],
    to_widths: &mut [i32],
    to_categories: &mut [u8],
    to_ignorables: &mut [u8],
    to_actions: &mut [u8],
    to_advances: &mut [i32],
    to_offsets: &mut [i32],
)
    requires { Writable rtl (columns_read line)
        m (columns_mut_now to_glyphs to_widths to_categories to_ignorables to_actions to_advances to_offsets) }
    ensures { LineWritten rtl (columns_read line.entry)
        m (columns_mut_lent to_glyphs to_widths to_categories to_ignorables to_actions to_advances to_offsets) }
{
    let n = line.actions.len();
    let mut at = 0;
    // from run to run, whose places are known only as they are found: no `for`
    let mut k = 0;
    while k < n {
        let next = runs::next_run(rtl, k, line.actions);
        let s = next - k;
        laying::keep(
            rtl,
            k,
            s,
            line,
            m,
            at,
            to_glyphs,
            to_widths,
            to_categories,
            to_ignorables,
            to_actions,
            to_advances,
            to_offsets,
        );
        let run = runs::measured_at(rtl, next, line);
        let past = run.past;
        at = placing::place_run(
            rtl,
            next,
            run,
            line,
            m,
            at + s,
            to_glyphs,
            to_widths,
            to_categories,
            to_ignorables,
            to_actions,
            to_advances,
            to_offsets,
        );
        k = past;
    }
}
