// Ligatures: the public call that writes a ligature lookup. One walk over the rules finds what decides whether it fits; a second writes its sets.
#![tactic(auto)]

ghost use Rattle.std.specs.Prelude.{◌≡◌, true, [], ◌+◌, ◌-◌, ◌*◌, ◌<◌, ◌≤◌, eqb, length, take, drop};
ghost use Rattle.words.specs.Words.{Wrote};
ghost use Rattle.layouts.specs.declared.Kind.TheVariants.{Ligature};
ghost use Rattle.layouts.specs.Tables.{rule_words, set_words};
ghost use Rattle.layouts.specs.Tables.{ligature as ligature_words};
ghost use Rattle.layouts.specs.Lookups.{rules, lookup_of, lookup_lent, fits};
ghost use Rattle.layouts.specs.Extents.{last_from};
ghost use Rattle.layouts.specs.Extents.{longest as longest_of};
ghost use Rattle.layouts.specs.Written.{Writing};
ghost use Rattle.ligatures.specs.Places.{Shape, rule_at, part, sets_from, SetAt};
ghost use Rattle.ligatures.specs.Sets.{set_blocks, SetsRoom, sets_placed};

use layouts::Written;
use refusals::Refusal;

// Rules of a lookup, at most: with more, an offset does not fit.
const MOST_RULES: usize = 16383;

// Whether `len` components are `n` for each of `count` ligatures.
pub fn flat(len: usize, count: usize, n: usize) -> bool
    ensures { result ≡ eqb len (count * n) }
{
    count.checked_mul(n) == Some(len)
}

// What decides whether a lookup fits: how many sets it has, how many rules the longest has, with which rule the last begins.
#[derive(Clone, Copy)]
struct Extent {
    sets: usize,
    longest: usize,
    last: usize,
}

// The rules that two columns of 16-bit numbers hold: `n` components, 2 or 3, and a ligature each.
#[derive(Clone, Copy)]
struct Rules<'a> {
    n: usize,
    components: &'a [u16],
    ligatures: &'a [u16],
    ghost shape: { Shape n components.now ligatures.now },
    ghost components_fit: { fits components.now ≡ true },
    ghost ligatures_fit: { fits ligatures.now ≡ true },
}

impl Rules<'_> {
    // The rule before which the set that begins with rule `i` ends.
    fn set_end(self, i: usize) -> usize
        requires { i < length self.ligatures.now }
        ensures { SetAt self.entry.n self.entry.components.now self.entry.ligatures.now i result }
    {
        let leader = self.components[i * self.n];
        for e in i + 1..self.ligatures.len() {
            if self.components[e * self.n] != leader {
                return e;
            }
        }
        self.ligatures.len()
    }

    // The extent of the rules, in one walk, which goes from set to set: so it is no `for`.
    fn survey(self) -> Extent
        ensures sets { result.sets ≡ length (sets_from self.entry.n self.entry.components.now self.entry.ligatures.now 0) }
        ensures longest { result.longest ≡ longest_of (sets_from self.entry.n self.entry.components.now self.entry.ligatures.now 0) }
        ensures last { result.last ≡ last_from 0 0 (sets_from self.entry.n self.entry.components.now self.entry.ligatures.now 0) }
    {
        let mut sets = 0;
        let mut longest = 0;
        let mut last = 0;
        let mut i = 0;
        while i < self.ligatures.len() {
            let e = self.set_end(i);
            sets += 1;
            longest = usize::max(longest, e - i);
            last = i;
            i = e;
        }
        Extent {
            sets,
            longest,
            last,
        }
    }

    // The one or two components behind the first, which is at place `i`: two stores cost less than a loop.
    fn put_others(self, i: usize, area: &mut [u8], at: usize) -> usize
        requires { (i + self.n ≤ length self.components.now) × (at + 2 * (self.n - 1) ≤ length area.old) }
        ensures { Wrote area.old at (take (self.entry.n - 1) (drop (i + 1) self.entry.components.now)) area.new result [] }
    {
        let a = words::put_u16(self.components[i + 1], area, at);
        if self.n == 2 {
            return a;
        }
        words::put_u16(self.components[i + 2], area, a)
    }

    // Rule `k`: its ligature, the number of its components, those behind the first.
    fn put_rule(self, k: usize, area: &mut [u8], at: usize) -> usize
        requires { (k < length self.ligatures.now) × (at + 2 * length (rule_words self.n (rule_at self.n self.components.now self.ligatures.now k)) ≤ length area.old) }
        ensures { Wrote area.old at (rule_words self.entry.n (rule_at self.entry.n self.entry.components.now self.entry.ligatures.now k)) area.new result [] }
    {
        let a = words::put_u16(self.ligatures[k], area, at);
        let b = words::put_u16(self.n as u16, area, a);
        self.put_others(k * self.n, area, b)
    }

    // The set of the rules from `i` up to `e`: its count, then where each rule begins, and the rule there.
    fn put_set(self, i: usize, e: usize, area: &mut [u8], at: usize) -> usize
        requires { let set = set_words self.n (part self.n self.components.now self.ligatures.now i e) in
            (i ≤ e) × (e ≤ length self.ligatures.now) × (fits set ≡ true) × (at + 2 * length set ≤ length area.old) }
        ensures { let set = set_words self.entry.n (part self.entry.n self.entry.components.now self.entry.ligatures.now i e) in
            Wrote area.old at set area.new result [] }
    {
        let count = e - i;
        let mut offset = words::put_u16(count as u16, area, at);
        let mut rule = offset + 2 * count;
        for k in i..e {
            offset = words::put_u16((rule - at) as u16, area, offset);
            rule = self.put_rule(k, area, rule);
        }
        rule
    }

    // Each set: where it begins, counted from byte 8, its leader, and the set there. The walk goes from set to set: so it is no `for`.
    fn put_sets(self, area: &mut [u8], offsets: usize, leaders: usize, at: usize) -> usize
        requires { SetsRoom self.n self.components.now self.ligatures.now area.old 0 offsets leaders at }
        ensures end { result ≡ at + 2 * length (set_blocks self.entry.n self.entry.components.now self.entry.ligatures.now 0) }
        ensures made { let filled = sets_placed self.entry.n self.entry.components.now self.entry.ligatures.now area.old 0 offsets leaders at in
            area.new ≡ filled }
    {
        let mut i = 0;
        let mut offset = offsets;
        let mut leader = leaders;
        let mut set = at;
        while i < self.ligatures.len() {
            let e = self.set_end(i);
            offset = words::put_u16((set - 8) as u16, area, offset);
            leader = words::put_u16(self.components[i * self.n], area, leader);
            set = self.put_set(i, e, area, set);
            i = e;
        }
        set
    }

    // The whole lookup, of `sets` sets, which fits.
    fn put_lookup(self, sets: usize, flags: u16, area: &mut [u8]) -> usize
        requires { let words = ligature_words flags self.n (rules self.n self.components.now self.ligatures.now) in
            (sets ≡ length (sets_from self.n self.components.now self.ligatures.now 0)) × (fits words ≡ true) × (2 * length words ≤ length area.old) }
        ensures { let words = ligature_words flags self.entry.n (rules self.entry.n self.entry.components.now self.entry.ligatures.now) in
            Wrote area.old 0 words area.new result [] }
    {
        let count = sets as u16;
        let head = [4, flags, 1, 8, 1, 6 + 2 * count, count];
        let offsets = words::put_words(&head, area, 0);
        let cover = [1, count];
        let leaders = words::put_words(&cover, area, offsets + 2 * sets);
        self.put_sets(area, offsets, leaders, leaders + 2 * sets)
    }

    // The lookup of rules that are at most so many that no sum overflows: 5, 8, or its bytes.
    fn write(self, flags: u16, area: &mut [u8]) -> Written
        requires { length self.ligatures.now ≤ 16383 }
        ensures { let l = lookup_of flags (Ligature self.entry.n) self.entry.components.now self.entry.ligatures.now in
            Writing l area.old result area.new }
    {
        let extent = self.survey();
        let size = 4 + 2 * self.n;
        if 65535 < 8 + 6 * extent.sets + extent.last * size {
            return Err(Refusal::Offset);
        }
        if 65535 + 2 * self.n < extent.longest * size {
            return Err(Refusal::Offset);
        }
        if area.len() < 18 + 6 * extent.sets + self.ligatures.len() * size {
            return Err(Refusal::NoRoom);
        }
        Ok(self.put_lookup(extent.sets, flags, area))
    }
}

// Writes the lookup of the rules that two columns hold, `n` components and a ligature each, at the start of the area, and says how many bytes it has.
pub fn serialize_ligature_lookup(
    n: u8,
    components: &[u16],
    ligatures: &[u16],
    flags: u16,
    area: &mut [u8],
) -> Written
    ensures { let l = lookup_lent flags (Ligature n) components ligatures in
        Writing l area.old result area.new }
{
    let n = usize::from(n);
    if !flat(components.len(), ligatures.len(), n) {
        return Err(Refusal::Uneven);
    }
    if (n != 2) & (n != 3) {
        return Err(Refusal::OutOfRange);
    }
    if MOST_RULES < ligatures.len() {
        return Err(Refusal::Offset);
    }
    let rules = Rules {
        n,
        components,
        ligatures,
    };
    rules.write(flags, area)
}
