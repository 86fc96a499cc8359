// Synthesis: rows of codes made the rules of a lookup in a font, in order, as the columns that a writer takes.
#![tactic(auto)]

ghost use Rattle.std.specs.Prelude.{◌≡◌, ◌+◌, ◌*◌, ◌≤◌, ◌<◌, length};
ghost use Rattle.laws.specs.Lists.{pasted};
ghost use Rattle.layouts.specs.declared.Kind.TheVariants.{Single, Ligature};
ghost use Rattle.fonts.specs.Lent.{font_lent};
ghost use Rattle.synthesis.specs.Rules.{ruled, kind_of};
ghost use Rattle.synthesis.specs.Made.{packed_in, row_of, gives, pair, Collected};

use fonts::Font;
use letters::Code;

// The rule of a shaping row. A form 0 costs no search.
fn single_rule(font: Font, code: u16, form: u16) -> Option<u64>
    ensures { packed_in result ≡ gives (font_lent font.entry) Single (pair code form) }
{
    if form == 0 {
        return None;
    }
    let target = font.glyph_for_codepoint(Code(u32::from(form)))?;
    let glyph = font.glyph_for_codepoint(Code(u32::from(code)))?;
    if glyph.0 == target.0 {
        return None;
    }
    Some(u64::from(target.0) * 65536 + u64::from(glyph.0))
}

// The rule of a row whose components begin at place `at`: the last component is packed first, so that the first is in the lowest bits.
fn ligature_rule(font: Font, n: usize, components: &[u16], at: usize, ligature: u16) -> Option<u64>
    requires { (n ≤ 3) × (at + n ≤ length components.now) }
    ensures { packed_in result ≡ gives (font_lent font.entry) (Ligature n) (row_of n components.now at ligature) }
{
    let whole = font.glyph_for_codepoint(Code(u32::from(ligature)))?;
    let mut x = u64::from(whole.0);
    for k in (0..n).rev() {
        let part = font.glyph_for_codepoint(Code(u32::from(components[at + k])))?;
        x = x * 65536 + u64::from(part.0);
    }
    Some(x)
}

// Puts what a row gives at place `at` of the rules; the place behind it.
fn keep(row: Option<u64>, rules: &mut [u64], at: usize) -> usize
    requires { at < length rules.old }
    ensures { (rules.new ≡ pasted (packed_in row) at rules.old) × (result ≡ at + length (packed_in row)) }
{
    match row {
        Some(x) => {
            rules[at] = x;
            at + 1
        }
        None => at,
    }
}

// A list of rows as it is lent: of each, `n` components, and one of `each` numbers of the other column, that at place `k`.
#[derive(Clone, Copy)]
pub struct Rows<'a> {
    pub count: usize,
    pub n: usize,
    pub each: usize,
    pub k: usize,
    pub components: &'a [u16],
    pub ligatures: &'a [u16],
    pub ghost low: { 1 ≤ n },
    pub ghost high: { n ≤ 3 },
    pub ghost inside: { k < each },
    pub ghost wide: { count * n ≤ length components.now },
    pub ghost long: { count * each ≤ length ligatures.now },
}

impl Rows<'_> {
    ghost use Rattle.synthesis.specs.Lent.{rows_lent};

    // The rule of a row whose components begin at place `at`.
    fn rule_of(self, font: Font, at: usize, ligature: u16) -> Option<u64>
        requires { at + self.n ≤ length self.components.now }
        ensures { let rows = self.entry in
            packed_in result ≡ gives (font_lent font.entry) (kind_of rows.n) (row_of rows.n rows.components.now at ligature) }
    {
        if self.n == 1 {
            return single_rule(font, self.components[at], ligature);
        }
        ligature_rule(font, self.n, self.components, at, ligature)
    }

    // The rules of all rows from the start of `rules` on, in the rows' order; how many they are.
    pub fn collect(self, font: Font, rules: &mut [u64]) -> usize
        requires { self.count ≤ length rules.old }
        ensures { Collected (ruled (font_lent font.entry) (kind_of self.entry.n) (rows_lent self.entry)) rules.old result rules.new }
    {
        let mut made = 0;
        for i in 0..self.count {
            let ligature = self.ligatures[i * self.each + self.k];
            let row = self.rule_of(font, i * self.n, ligature);
            made = keep(row, rules, made);
        }
        made
    }
}
