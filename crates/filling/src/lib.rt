// Filling: the rules of a ligature lookup put into two columns, components and ligatures.
#![tactic(auto)]

ghost use Rattle.std.specs.Prelude.{◌≡◌, ◌+◌, ◌*◌, ◌<◌, ◌≤◌, length};
ghost use Rattle.laws.specs.Lists.{pasted};
ghost use Rattle.layouts.specs.Lookups.{flat};
ghost use Rattle.grouping.specs.Grouped.{rule_at, rules_at, end_at, leads_at};
ghost use Rattle.filling.specs.Filled.{all_rules, Filled};

// The bytes of a set's rules, which have `n` components and begin with the glyph `lead`.
#[derive(Clone, Copy)]
struct Set<'a> {
    n: usize,
    lead: u16,
    bytes: &'a [u8],
    ghost low: { 2 ≤ n },
    ghost high: { n ≤ 3 },
}

impl Set<'_> {
    // The components of the rule at byte `at`, from place `x` of the column on.
    fn fill_rule(self, at: usize, components: &mut [u16], x: usize)
        requires { (at + (2 + 2 * self.n) ≤ length self.bytes.now) × (x + self.n ≤ length components.old) }
        ensures { components.new ≡ pasted (rule_at self.entry.n self.entry.lead self.entry.bytes.now at).components x components.old }
    {
        components[x] = self.lead;
        components[x + 1] = words::u16_at(self.bytes, at + 4);
        if self.n == 2 {
            return;
        }
        components[x + 2] = words::u16_at(self.bytes, at + 6);
    }

    // `c` rules from byte `at` on: their components from place `x`, their ligatures from place `i` on.
    fn fill_rules(
        self,
        c: usize,
        at: usize,
        components: &mut [u16],
        x: usize,
        ligatures: &mut [u16],
        i: usize,
    )
        requires { (at + c * (2 + 2 * self.n) ≤ length self.bytes.now) × (x + c * self.n ≤ length components.old) × (i + c ≤ length ligatures.old) }
        ensures { Filled (rules_at self.entry.n self.entry.lead c self.entry.bytes.now at) components.old x ligatures.old i components.new ligatures.new }
    {
        let mut p = at;
        let mut y = x;
        for j in i..i + c {
            self.fill_rule(p, components, y);
            ligatures[j] = words::u16_at(self.bytes, p);
            p += 2 + 2 * self.n;
            y += self.n;
        }
    }
}

// The rules of all `s` sets, from the start of both columns.
pub fn fill_sets(n: usize, s: usize, bytes: &[u8], components: &mut [u16], ligatures: &mut [u16])
    requires le_n { (2 ≤ n) × (n ≤ 3) × (s < 65536) × (end_at n (leads_at s bytes.now) bytes.now (18 + 4 * s) ≤ length bytes.now) }
    requires bytes_in_bounds { (length (flat (all_rules n s bytes.now)) ≤ length components.old) × (length (all_rules n s bytes.now) ≤ length ligatures.old) }
    ensures { Filled (all_rules n s bytes.now) components.old 0 ligatures.old 0 components.new ligatures.new }
{
    let leads = 18 + 2 * s;
    let mut p = 18 + 4 * s;
    let mut x = 0;
    let mut i = 0;
    for k in 0..s {
        let c = usize::from(words::u16_at(bytes, p));
        let lead = words::u16_at(bytes, leads + 2 * k);
        let set = Set { n, lead, bytes };
        set.fill_rules(c, p + 2 + 2 * c, components, x, ligatures, i);
        p += 2 + c * (4 + 2 * n);
        x += c * n;
        i += c;
    }
}
