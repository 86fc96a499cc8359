// Adding: the lookup of a list of rows, added to a draft. Rows are made rules, each one number; these are put into order and laid out as the columns that a writer takes.
#![tactic(auto)]

ghost use Rattle.std.specs.Prelude.{◌≡◌, [], ◌∷◌, map, ◌*◌, ◌≤◌, length};
ghost use Rattle.layouts.specs.Lookups.{listed};
ghost use Rattle.fonts.specs.Lent.{font_lent};
ghost use Rattle.packing.specs.Packed.{unpacked};
ghost use Rattle.synthesis.specs.Rules.{kind_of};
ghost use Rattle.synthesis.specs.Made.{Collected};
ghost use Rattle.drafts.specs.Entries.{entry, rule_limit, most};
ghost use Rattle.drafts.specs.Drafted.{Roomy, Added};
ghost use Rattle.adding.specs.Source.{rules_of, entry_of};

use drafts::{Columns, Draft, RULE_LIMIT};
use fonts::Font;
use layouts::Kind;
use synthesis::Rows;

// The rules of rows in order, from the start of `rules` on; how many they are.
fn order_rules(font: Font, rows: Rows, rules: &mut [u64]) -> usize
    requires { (rows.count ≤ rule_limit) × (rows.count ≤ length rules.old) }
    ensures { Collected (rules_of (font_lent font.entry) rows.entry) rules.old result rules.new }
{
    let made = rows.collect(font, rules);
    ordering::sort(&mut rules[..made]);
    made
}

// The kind of a lookup whose rules replace `n` glyphs.
fn kind_of(n: usize) -> Kind
    requires { n ≤ 3 }
    ensures { result ≡ kind_of n }
{
    if n == 1 {
        return Kind::Single;
    }
    Kind::Ligature(n as u8)
}

// Adds the lookup of rules of `n` components, which are one number each; in columns lent for 1,024 rules.
fn push_in(
    draft: Draft,
    mask: u32,
    flags: u16,
    n: usize,
    rules: &[u64],
    firsts: &mut [u16],
    seconds: &mut [u16],
    scratch: &mut [u8],
) -> Draft
    requires { (1 ≤ n) × (n ≤ 3) × (length rules.now ≤ rule_limit) × (length firsts.old ≡ 3 * rule_limit) × (length seconds.old ≡ rule_limit) × Roomy (kind_of n) draft scratch.old }
    ensures { Added (record { mask = mask; lookup = listed flags (kind_of n) (map (unpacked n) rules.now) } ∷ []) (most (kind_of n)) draft scratch.old result scratch.new }
{
    packing::unpack(n, rules, firsts, seconds);
    let made = rules.len();
    let wide = made * n;
    let columns = Columns {
        kind: kind_of(n),
        flags,
        glyphs: &firsts[..wide],
        substitutes: &seconds[..made],
    };
    draft.push(mask, columns, scratch)
}

// The same in columns of its own: they are made only where there is a rule.
fn push_rules(
    draft: Draft,
    mask: u32,
    flags: u16,
    n: usize,
    rules: &[u64],
    scratch: &mut [u8],
) -> Draft
    requires { (1 ≤ n) × (n ≤ 3) × (length rules.now ≤ rule_limit) × Roomy (kind_of n) draft scratch.old }
    ensures { Added (record { mask = mask; lookup = listed flags (kind_of n) (map (unpacked n) rules.now) } ∷ []) (most (kind_of n)) draft scratch.old result scratch.new }
{
    let mut firsts = [0u16; 3 * RULE_LIMIT];
    let mut seconds = [0u16; RULE_LIMIT];
    push_in(
        draft,
        mask,
        flags,
        n,
        rules,
        &mut firsts,
        &mut seconds,
        scratch,
    )
}

// The lookup of rows, with their rules in memory lent for 1,024.
fn synthesize_in(
    draft: Draft,
    mask: u32,
    flags: u16,
    font: Font,
    rows: Rows,
    rules: &mut [u64],
    scratch: &mut [u8],
) -> Draft
    requires { (rows.count ≤ rule_limit) × Roomy (kind_of rows.n) draft scratch.old × (length rules.old ≡ rule_limit) }
    ensures { let ordered = rules_of (font_lent font.entry) rows.entry in
        Added (entry_of mask flags (kind_of rows.entry.n) ordered) (most (kind_of rows.entry.n)) draft scratch.old result scratch.new }
{
    let made = order_rules(font, rows, rules);
    if made == 0 {
        return draft;
    }
    push_rules(draft, mask, flags, rows.n, &rules[..made], scratch)
}

// Adds the lookup of rows, unless it has no mask or no rule is left. A font without codes leaves none, and no memory is made for them.
pub fn synthesize_lookup(
    draft: Draft,
    mask: u32,
    flags: u16,
    font: Font,
    rows: Rows,
    scratch: &mut [u8],
) -> Draft
    requires { (rows.count ≤ rule_limit) × Roomy (kind_of rows.n) draft scratch.old }
    ensures { let ordered = rules_of (font_lent font.entry) rows.entry in
        Added (entry mask flags (kind_of rows.entry.n) ordered) (most (kind_of rows.entry.n)) draft scratch.old result scratch.new }
{
    if mask == 0 {
        return draft;
    }
    if font.codes.is_empty() {
        return draft;
    }
    let mut rules = [0u64; RULE_LIMIT];
    synthesize_in(draft, mask, flags, font, rows, &mut rules, scratch)
}
