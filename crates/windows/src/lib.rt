// Windows: the plan for fonts that encode Arabic by Windows-1256, from tables.
#![tactic(auto)]

ghost use Rattle.std.specs.Prelude.{◌≡◌, ◌<◌, ◌≤◌, eqb, length};
ghost use Rattle.fonts.specs.Font.{glyph_of};
ghost use Rattle.fonts.specs.Lent.{font_lent};
ghost use Rattle.drafts.specs.Entries.{longest_direct};
ghost use Rattle.drafts.specs.Drafted.{Drafted};
ghost use Rattle.windows.specs.Windows.{signed, direct};
ghost use Rattle.windows.specs.Windows.{windows as windows_of};

use drafts::{Columns, Draft};
use fonts::Font;
use layouts::Kind;
use letters::{Code, Glyph};

const LAM_ALEF: Columns = Columns {
    kind: Kind::Ligature(2),
    flags: drafts::IGNORE_MARKS,
    glyphs: &[225, 199, 225, 195, 225, 194, 225, 197],
    substitutes: &[165, 178, 180, 252],
};

const INITIAL: Columns = Columns {
    kind: Kind::Single,
    flags: drafts::IGNORE_MARKS,
    glyphs: &[
        198, 200, 201, 202, 203, 204, 205, 206, 211, 212, 213, 214, 218, 219, 221, 222, 223, 225,
        227, 228, 229, 236, 237,
    ],
    substitutes: &[
        162, 4, 5, 5, 6, 7, 9, 11, 13, 14, 15, 26, 27, 30, 128, 131, 140, 141, 142, 143, 144, 154,
        154,
    ],
};

const MEDIAL: Columns = Columns {
    kind: Kind::Single,
    flags: drafts::IGNORE_MARKS,
    glyphs: &[
        165, 178, 180, 198, 200, 201, 202, 203, 204, 205, 206, 211, 212, 213, 214, 218, 219, 221,
        222, 223, 225, 227, 228, 229, 236, 237, 252,
    ],
    substitutes: &[
        170, 179, 185, 162, 4, 5, 5, 6, 7, 9, 11, 13, 14, 15, 26, 28, 31, 129, 138, 140, 141, 142,
        143, 149, 154, 154, 255,
    ],
};

const FINAL: Columns = Columns {
    kind: Kind::Single,
    flags: drafts::IGNORE_MARKS,
    glyphs: &[
        165, 178, 180, 194, 195, 197, 198, 199, 201, 204, 205, 206, 218, 219, 229, 236, 237, 252,
    ],
    substitutes: &[
        170, 179, 185, 2, 1, 3, 181, 0, 159, 8, 10, 12, 29, 127, 152, 160, 156, 255,
    ],
};

const SHADDA: Columns = Columns {
    kind: Kind::Ligature(2),
    flags: drafts::NO_FLAGS,
    glyphs: &[248, 243, 248, 245, 248, 246],
    substitutes: &[172, 173, 175],
};

// Whether the font has this glyph for the code.
fn has_glyph(font: Font, code: Code, glyph: Glyph) -> bool
    requires { glyph.0 < 4294967296 }
    ensures { result ≡ eqb (glyph_of (font_lent font.entry) code.0) glyph.0 }
{
    font.nominal_glyph(code)
        .is_some_and(|found| found.0 == glyph.0)
}

// Whether the font has the signature: the glyphs of Alef, Lam, Alef Maksura, Yeh and Sukun.
pub fn is_win1256_font(font: Font) -> bool
    ensures { result ≡ signed (font_lent font.entry) }
{
    has_glyph(font, Code(0x0627), Glyph(199))
        & (has_glyph(font, Code(0x0644), Glyph(225))
            & (has_glyph(font, Code(0x0649), Glyph(236))
                & (has_glyph(font, Code(0x064A), Glyph(237))
                    & has_glyph(font, Code(0x0652), Glyph(250)))))
}

// The five lookups, each if it has a mask.
fn add_tables(masks: [u32; 5], scratch: &mut [u8]) -> Draft
    requires { (longest_direct ≤ length scratch.old) × (length scratch.old < 4294967296) }
    ensures { Drafted (windows_of masks) result scratch.new }
{
    let lam_alef = Draft::new().add_direct_lookup(masks[4], LAM_ALEF, scratch);
    let init = lam_alef.add_direct_lookup(masks[0], INITIAL, scratch);
    let medi = init.add_direct_lookup(masks[1], MEDIAL, scratch);
    let fina = medi.add_direct_lookup(masks[2], FINAL, scratch);
    fina.add_direct_lookup(masks[4], SHADDA, scratch)
}

// The plan of such a font; no entry where the font has not the signature.
pub fn new_win1256(masks: [u32; 5], font: Font, scratch: &mut [u8]) -> Draft
    requires { (longest_direct ≤ length scratch.old) × (length scratch.old < 4294967296) }
    ensures { Drafted (direct masks (font_lent font.entry)) result scratch.new }
{
    if is_win1256_font(font) {
        return add_tables(masks, scratch);
    }
    Draft::new()
}
