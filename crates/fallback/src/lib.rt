// Fallback: the public call that makes a plan of lookups for a font that has none of its own, and the one that says whether there is to be one.
#![tactic(auto)]

ghost use Rattle.std.specs.Prelude.{◌≡◌, ◌*◌, ◌≤◌, length, IfOk};
ghost use Rattle.laws.specs.Rows.{first};
ghost use Rattle.refusals.specs.Numbers.{said};
ghost use Rattle.fonts.specs.Lent.{font_lent};
ghost use Rattle.layouts.specs.declared.Kind.TheVariants.{Single};
ghost use Rattle.synthesis.specs.Rules.{rows, kind_of, ruled, in_order};
ghost use Rattle.drafts.specs.Entries.{entry, rule_limit, most, longest_plan};
ghost use Rattle.drafts.specs.Drafted.{Roomy, Reached, Added};
ghost use Rattle.fallback.specs.Plan.{inputs_lent, four_forms, unicode, plan};
ghost use Rattle.fallback.specs.Planned.{lent_rows, Settled, Settles, Planning};
ghost use Rattle.fallback.specs.Switch.{fallback_on};

use drafts::{Draft, RULE_LIMIT};
use fonts::Font;
use refusals::{Refusal, Verdict};
use synthesis::Rows;

// Bytes of a plan, at most: four lookups of 4,114, one of 16,402 and two of 14,354.
const LONGEST_PLAN: usize = 61566;

// A plan: its entries, each a mask and how many bytes its lookup has, in two columns as `tt_fallback_plan` gives them to C.
#[derive(Clone, Copy)]
pub struct FallbackPlan {
    pub count: usize,
    pub masks: [u32; 7],
    pub lengths: [u32; 7],
}

impl FallbackPlan {
    // Makes the plan of a font: lookups by the masks for init, medi, fina, isol and rlig, the font's map, the shaping rows, a code and four forms each, and the lists of ligatures of three components, of two, and of marks. Their bytes are put one behind the other at the start of the area.
    pub fn new(
        masks: [u32; 5],
        codes: &[u32],
        glyphs: &[u32],
        shaping: &[u16],
        forms: &[u16],
        three_components: &[u16],
        three_ligatures: &[u16],
        two_components: &[u16],
        two_ligatures: &[u16],
        mark_components: &[u16],
        mark_ligatures: &[u16],
        area: &mut [u8],
    ) -> Result<FallbackPlan, Refusal>
        ensures { let i = inputs_lent masks codes glyphs shaping forms three_components three_ligatures two_components two_ligatures mark_components mark_ligatures in
            Planning i area.old result area.new }
    {
        let inputs = Inputs::tested(
            masks,
            codes,
            glyphs,
            shaping,
            forms,
            three_components,
            three_ligatures,
            two_components,
            two_ligatures,
            mark_components,
            mark_ligatures,
        )?;
        let mut scratch = [0u8; LONGEST_PLAN];
        inputs.plan_in(&mut scratch, area)
    }
}

// The answer of a draft: its bytes at the start of the area, if they go in.
fn settle(draft: Draft, scratch: &[u8], area: &mut [u8]) -> Result<FallbackPlan, Refusal>
    requires { draft.end ≤ length scratch.now }
    ensures { Settles draft scratch.now area.old result area.new }
{
    let n = draft.end;
    if area.len() < n {
        return Err(Refusal::NoRoom);
    }
    parts::copy(scratch, 0, n, area, 0);
    let masks = draft.masks;
    let lengths = draft.lengths;
    Ok(FallbackPlan {
        count: draft.count,
        masks,
        lengths,
    })
}

// A list of ligatures as it is lent: its components, one row behind the other, and what stands for them.
#[derive(Clone, Copy)]
struct Ligatures<'a> {
    components: &'a [u16],
    ligatures: &'a [u16],
}

// Adds the lookup of a list of ligatures of `n` components.
fn add_list(
    draft: Draft,
    mask: u32,
    flags: u16,
    font: Font,
    n: usize,
    list: Ligatures,
    scratch: &mut [u8],
) -> Draft
    requires { (1 ≤ n) × (n ≤ 3) × (length list.components.now ≡ length list.ligatures.now * n) × (length list.ligatures.now ≤ rule_limit) × Roomy (kind_of n) draft scratch.old }
    ensures { let from = rows (length list.entry.ligatures.now) n 1 0 list.entry.components.now list.entry.ligatures.now in
        Added (entry mask flags (kind_of n) (in_order (ruled (font_lent font.entry) (kind_of n) from))) (most (kind_of n)) draft scratch.old result scratch.new }
{
    let rows = Rows {
        count: list.ligatures.len(),
        n,
        each: 1,
        k: 0,
        components: list.components,
        ligatures: list.ligatures,
    };
    adding::synthesize_lookup(draft, mask, flags, font, rows, scratch)
}

// What is lent to make a plan, tested.
#[derive(Clone, Copy)]
struct Inputs<'a> {
    masks: [u32; 5],
    font: Font<'a>,
    shaping: &'a [u16],
    forms: &'a [u16],
    threes: Ligatures<'a>,
    twos: Ligatures<'a>,
    marks: Ligatures<'a>,
    ghost four: { length forms.now ≡ length shaping.now * 4 },
    ghost three: { length threes.components.now ≡ length threes.ligatures.now * 3 },
    ghost two: { length twos.components.now ≡ length twos.ligatures.now * 2 },
    ghost mark: { length marks.components.now ≡ length marks.ligatures.now * 2 },
    ghost few_shaping: { length shaping.now ≤ rule_limit },
    ghost few_threes: { length threes.ligatures.now ≤ rule_limit },
    ghost few_twos: { length twos.ligatures.now ≤ rule_limit },
    ghost few_marks: { length marks.ligatures.now ≤ rule_limit },
}

impl<'a> Inputs<'a> {
    ghost use Rattle.fallback.specs.Lent.{inputs_in};

    // Tests the columns; refused by the smallest number of those that apply, whatever the area.
    fn tested(
        masks: [u32; 5],
        codes: &'a [u32],
        glyphs: &'a [u32],
        shaping: &'a [u16],
        forms: &'a [u16],
        three_components: &'a [u16],
        three_ligatures: &'a [u16],
        two_components: &'a [u16],
        two_ligatures: &'a [u16],
        mark_components: &'a [u16],
        mark_ligatures: &'a [u16],
    ) -> Result<Inputs<'a>, Refusal>
        ensures number { let i = inputs_lent masks codes glyphs shaping forms three_components three_ligatures two_components two_ligatures mark_components mark_ligatures in
            said result ≡ first (lent_rows i) }
        ensures lent { let i = inputs_lent masks codes glyphs shaping forms three_components three_ligatures two_components two_ligatures mark_components mark_ligatures in
            IfOk result (λ inputs. inputs_in inputs ≡ i) }
    {
        let even = (codes.len() == glyphs.len())
            & (ligatures::flat(forms.len(), shaping.len(), 4)
                & (ligatures::flat(three_components.len(), three_ligatures.len(), 3)
                    & (ligatures::flat(two_components.len(), two_ligatures.len(), 2)
                        & ligatures::flat(mark_components.len(), mark_ligatures.len(), 2))));
        let short = (shaping.len() <= RULE_LIMIT)
            & ((three_ligatures.len() <= RULE_LIMIT)
                & ((two_ligatures.len() <= RULE_LIMIT) & (mark_ligatures.len() <= RULE_LIMIT)));
        refusals::unless(even, Refusal::Uneven)?;
        refusals::unless(short, Refusal::TooLong)?;
        refusals::rising(codes)?;
        Ok(Inputs {
            masks,
            font: Font { codes, glyphs },
            shaping,
            forms,
            threes: Ligatures {
                components: three_components,
                ligatures: three_ligatures,
            },
            twos: Ligatures {
                components: two_components,
                ligatures: two_ligatures,
            },
            marks: Ligatures {
                components: mark_components,
                ligatures: mark_ligatures,
            },
        })
    }

    // The lookups of the four forms of the shaping rows.
    fn add_forms(self, scratch: &mut [u8]) -> Draft
        requires { length scratch.old ≡ longest_plan }
        ensures { let i = inputs_in self.entry in
            Reached (four_forms i.masks i.font i.shaping i.forms) 4 (4 * most Single) longest_plan result scratch.new }
    {
        let mut draft = Draft::new();
        for k in 0..4 {
            let rows = Rows {
                count: self.shaping.len(),
                n: 1,
                each: 4,
                k,
                components: self.shaping,
                ligatures: self.forms,
            };
            draft = adding::synthesize_lookup(
                draft,
                self.masks[k],
                drafts::IGNORE_MARKS,
                self.font,
                rows,
                scratch,
            );
        }
        draft
    }

    // The plan by Unicode's presentation forms: four lookups of forms, then those of the three lists of ligatures.
    fn new_unicode(self, scratch: &mut [u8]) -> Draft
        requires { length scratch.old ≡ longest_plan }
        ensures { Reached (unicode (inputs_in self.entry)) 7 longest_plan longest_plan result scratch.new }
    {
        let mask = self.masks[4];
        let flags = drafts::IGNORE_MARKS;
        let forms_in = self.add_forms(scratch);
        let threes_in = add_list(forms_in, mask, flags, self.font, 3, self.threes, scratch);
        let twos_in = add_list(threes_in, mask, flags, self.font, 2, self.twos, scratch);
        add_list(
            twos_in,
            mask,
            drafts::NO_FLAGS,
            self.font,
            2,
            self.marks,
            scratch,
        )
    }

    // The plan: Unicode first, Windows-1256 second.
    fn plan_in(self, scratch: &mut [u8], area: &mut [u8]) -> Result<FallbackPlan, Refusal>
        requires { length scratch.old ≡ longest_plan }
        ensures { Settled (plan (inputs_in self.entry)) area.old result area.new }
    {
        let draft = self.new_unicode(scratch);
        if draft.count != 0 {
            return settle(draft, scratch, area);
        }
        let direct = windows::new_win1256(self.masks, self.font, scratch);
        settle(direct, scratch, area)
    }
}

// Which features of the Arabic script a font leaves to the fallback.
#[derive(Clone, Copy)]
pub struct Needs {
    pub isol: bool,
    pub fina: bool,
    pub medi: bool,
    pub init: bool,
}

// Whether the fallback is used.
pub fn do_fallback(arabic: bool, needs: Needs) -> bool
    ensures { result ≡ fallback_on arabic needs }
{
    arabic & (needs.isol & (needs.fina & (needs.medi & needs.init)))
}
