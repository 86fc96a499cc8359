// Copying: records of a line, copied to lent columns.
#![tactic(auto)]

ghost use Rattle.runs.specs.Records.{columns_read, columns_mut_now, columns_mut_lent};
ghost use Rattle.copying.specs.Pasted.{Copyable, PartCopied};

use runs::Line;

// Copies `s` records of a line from `i` on to the places from `o` on. The output's columns stay parameters, since the contract names what each `&mut` leaves. Each column is copied for itself: the compiler then copies many numbers at once.
pub fn copy_columns(
    i: usize,
    s: usize,
    line: Line<'_>,
    o: usize,
    to_glyphs: &mut [u32],
    to_widths: &mut [i32],
    to_categories: &mut [u8],
    to_ignorables: &mut [u8],
    to_actions: &mut [u8],
    to_advances: &mut [i32],
    to_offsets: &mut [i32],
)
    requires { Copyable i s (columns_read line)
        o (columns_mut_now to_glyphs to_widths to_categories to_ignorables to_actions to_advances to_offsets) }
    ensures { PartCopied i s (columns_read line.entry)
        o (columns_mut_lent to_glyphs to_widths to_categories to_ignorables to_actions to_advances to_offsets) }
{
    parts::copy(line.glyphs, i, s, to_glyphs, o);
    parts::copy(line.widths, i, s, to_widths, o);
    parts::copy(line.categories, i, s, to_categories, o);
    parts::copy(line.ignorables, i, s, to_ignorables, o);
    parts::copy(line.actions, i, s, to_actions, o);
    parts::copy(line.advances, i, s, to_advances, o);
    parts::copy(line.offsets, i, s, to_offsets, o);
}

// The same, record by record.
pub fn copy_records(
    i: usize,
    s: usize,
    line: Line<'_>,
    o: usize,
    to_glyphs: &mut [u32],
    to_widths: &mut [i32],
    to_categories: &mut [u8],
    to_ignorables: &mut [u8],
    to_actions: &mut [u8],
    to_advances: &mut [i32],
    to_offsets: &mut [i32],
)
    requires { Copyable i s (columns_read line)
        o (columns_mut_now to_glyphs to_widths to_categories to_ignorables to_actions to_advances to_offsets) }
    ensures { PartCopied i s (columns_read line.entry)
        o (columns_mut_lent to_glyphs to_widths to_categories to_ignorables to_actions to_advances to_offsets) }
{
    for j in 0..s {
        let width = runs::at(line.widths, i + j);
        let advance = runs::at(line.advances, i + j);
        let offset = runs::at(line.offsets, i + j);
        to_glyphs[o + j] = line.glyphs[i + j];
        to_widths[o + j] = width;
        to_categories[o + j] = line.categories[i + j];
        to_ignorables[o + j] = line.ignorables[i + j];
        to_actions[o + j] = line.actions[i + j];
        to_advances[o + j] = advance;
        to_offsets[o + j] = offset;
    }
}
