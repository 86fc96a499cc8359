// Packing: rules that are one number each, laid out in the columns of a lookup.
#![tactic(auto)]

ghost use Rattle.std.specs.Prelude.{◌≡◌, ◌++◌, map, ◌+◌, ◌*◌, ◌≤◌, length, drop};
ghost use Rattle.laws.specs.Lists.{pasted};
ghost use Rattle.layouts.specs.Lookups.{flat};
ghost use Rattle.layouts.specs.Lookups.{ligatures as ligatures_of};
ghost use Rattle.packing.specs.Packed.{digits, above, unpacked};

// The lowest `n` numbers of 16 bits of `x`, from place `at` of the column on; returns what is above them.
fn put_digits(n: usize, x: u64, components: &mut [u16], at: usize) -> u64
    requires { at + n ≤ length components.old }
    ensures { (result ≡ above n x) × (components.new ≡ pasted (digits n x) at components.old) }
{
    let mut rest = x;
    for k in at..at + n {
        components[k] = (rest % 65536) as u16;
        rest /= 65536;
    }
    rest
}

// The columns of rules of `n` components: their components, one rule behind the other, and what stands for them.
pub fn unpack(n: usize, rules: &[u64], components: &mut [u16], ligatures: &mut [u16])
    requires { (length rules.now * n ≤ length components.old) × (length rules.now ≤ length ligatures.old) }
    ensures components { let xs = rules.now in
        components.new ≡ flat (map (unpacked n) xs) ++ drop (length xs * n) components.old }
    ensures ligatures { let xs = rules.now in
        ligatures.new ≡ ligatures_of (map (unpacked n) xs) ++ drop (length xs) ligatures.old }
{
    let mut at = 0;
    for i in 0..rules.len() {
        let ligature = put_digits(n, rules[i], components, at);
        ligatures[i] = (ligature % 65536) as u16;
        at += n;
    }
}
