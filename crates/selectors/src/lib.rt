// Mongolian variation selectors: each takes the action of the record before it.
#![tactic(auto)]

ghost use Rattle.std.specs.Prelude.{◌≡◌, ◌+◌, ◌<◌, ◌≤◌, length, drop};
ghost use Rattle.selectors.specs.Selectors.{selector, settled, run, base};

use letters::Code;

// Whether a code is one of the four selectors.
pub fn is_selector(c: Code) -> bool
    ensures { result ≡ selector c.0 }
{
    (c.0 == 0x180B) | ((c.0 == 0x180C) | ((c.0 == 0x180D) | (c.0 == 0x180F)))
}

// Where the selectors end that stand from `k` on.
pub fn run_end(codes: &[u32], k: usize) -> usize
    requires { k ≤ length codes.now }
    ensures { result ≡ k + run (drop k codes.now) }
{
    for i in k..codes.len() {
        if !is_selector(Code(codes[i])) {
            return i;
        }
    }
    codes.len()
}

// Settles the actions of a joined line. A record is looked at once the one before it is settled, so the action there is the one to take.
pub fn mongolian_variation_selectors(codes: &[u32], actions: &mut [u8])
    requires { length codes.now ≡ length actions.old }
    ensures { actions.new ≡ settled codes.now actions.old }
{
    for i in 1..codes.len() {
        let code = Code(codes[i]);
        if !is_selector(code) {
            continue;
        }
        actions[i] = actions[i - 1];
    }
}

// Where the record stands whose action the one at `k` has. Record 0 is not asked: it keeps its action, whatever its code.
pub fn base_of(codes: &[u32], k: usize) -> usize
    requires { k < length codes.now }
    ensures { result ≡ base codes.now k }
{
    for i in (1..k + 1).rev() {
        if !is_selector(Code(codes[i])) {
            return i;
        }
    }
    0
}
