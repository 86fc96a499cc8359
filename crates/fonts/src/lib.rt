// Fonts: the map from code points to glyphs that a font lends, searched by powers of two.
#![tactic(auto)]

ghost use Rattle.std.specs.Prelude.{◌≡◌, cond, ltb};
ghost use Rattle.fonts.specs.Font.{font_of, Sound, Span, glyph_of, number_found, Usable};

use letters::{Code, Glyph};

// The greatest power of two that is not above `n`; 1 for 0.
pub fn span_of(n: usize) -> usize
    ensures { Span n result }
{
    if n == 0 { 1 } else { 1 << n.ilog2() }
}

// The later of two places, unless its code is above the one sought. A function of its own, so that a step chooses between two numbers, and all else in it is the same for both.
fn later(code: u32, sought: u32, base: usize, middle: usize) -> usize
    ensures { result ≡ cond (ltb sought code) base middle }
{
    if sought < code { base } else { middle }
}

// A map as it is lent: codes that rise strictly, and a glyph for each.
#[derive(Clone, Copy)]
pub struct Font<'a> {
    pub codes: &'a [u32],
    pub glyphs: &'a [u32],
    pub ghost sound: { Sound (font_of codes.now glyphs.now) },
}

impl Font<'_> {
    ghost use Rattle.fonts.specs.Lent.{font_lent};

    // The glyph of a code, if the font has one.
    pub fn nominal_glyph(self, code: Code) -> Option<Glyph>
        ensures { number_found result ≡ glyph_of (font_lent self.entry) code.0 }
    {
        let sought = code.0;
        let n = self.codes.len();
        if n == 0 {
            return None;
        }
        let span = span_of(n);
        let tail = n - span;
        let mut base = later(self.codes[tail], sought, 0, tail);
        let mut half = span / 2;
        // Halves a window that is a power of two, so that a step is one comparison and one choice. By the library's
        // `binary_search` a plan of the Rust's rows took 1.01 to 1.08 of the Rust's instructions, where 1.00 is the bar.
        while 0 < half {
            let middle = base + half;
            base = later(self.codes[middle], sought, base, middle);
            half /= 2;
        }
        if self.codes[base] == sought {
            return Some(Glyph(self.glyphs[base]));
        }
        None
    }

    // The glyph of a code that a rule may use: absent where there is none, or one above 65,535.
    pub fn glyph_for_codepoint(self, code: Code) -> Option<Glyph>
        ensures { Usable result (glyph_of (font_lent self.entry) code.0) }
    {
        let glyph = self.nominal_glyph(code)?;
        if glyph.0 <= 65535 { Some(glyph) } else { None }
    }
}
