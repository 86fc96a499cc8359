// What cases come to, and how they are counted.
//
// `replays::run` is a loop of `goes_on` and `counted` (by `tell`): it ends, since the tally grows with each case.
#![tactic(auto)]

ghost use Rattle.std.specs.Prelude.{◌≡◌};
ghost use Rattle.tallies.specs.Counting.{judged, is_case_lem, is_off_lem, up, counted, goes_on_lem};

// What a case comes to: it is as it must be, or not; or the input ends; or there is no such case.
#[derive(Clone, Copy, Debug, PartialEq, Eq)]
pub enum Outcome {
    Same,
    Differs,
    End,
    Unreadable,
}

// How many cases there were, and how many of them differ.
#[derive(Clone, Copy, Debug, PartialEq, Eq)]
pub struct Tally {
    pub cases: u64,
    pub differ: u64,
}

// What a case comes to, by whether its body is of the form and whether every comparison agrees.
pub fn judged(formed: bool, agrees: bool) -> Outcome
    ensures { result ≡ judged formed agrees }
{
    if formed {
        if agrees {
            Outcome::Same
        } else {
            Outcome::Differs
        }
    } else {
        Outcome::Unreadable
    }
}

// Before the first case.
pub fn begin() -> Tally
    ensures { (result.cases ≡ 0) × (result.differ ≡ 0) }
{
    Tally {
        cases: 0,
        differ: 0,
    }
}

// Whether it is a case at all, and no end of them.
fn is_case(what: Outcome) -> bool
    ensures { result ≡ is_case_lem what }
{
    matches!(what, Outcome::Same | Outcome::Differs)
}

fn is_off(what: Outcome) -> bool
    ensures { result ≡ is_off_lem what }
{
    what == Outcome::Differs
}

// Whether this is a case that can be counted. A loop that asks it ends: the tally grows with each case.
pub fn goes_on(t: Tally, what: Outcome) -> bool
    ensures { result ≡ goes_on_lem t what }
{
    is_case(what) & (t.cases < u64::MAX)
}

// One more, if asked for.
fn up(more: bool, n: u64) -> u64
    ensures { result ≡ up more n }
{
    n.saturating_add(u64::from(more))
}

// The tally with one more case.
pub fn counted(t: Tally, what: Outcome) -> Tally
    ensures { result ≡ counted t what }
{
    Tally {
        cases: up(is_case(what), t.cases),
        differ: up(is_off(what), t.differ),
    }
}
