// Replays cases of refusals: two lengths and a limit u32 x3, a column u8, its bound u8, codes u32 go in; the numbers u8 x5 of
// four verdicts (lengths that differ, one above the limit, a column above its bound, codes that do not rise) and of the smallest among
// them come out. They are made as the calls make theirs.
#![tactic(auto)]

use refusals::Refusal;
use tallies::Outcome;

// The number of each verdict, and of the smallest, which wins whatever stands first.
fn numbers(n: u32, m: u32, most: u32, column: &[u8], bound: u8, codes: &[u32]) -> [u8; 5] {
    let uneven = refusals::unless(n == m, Refusal::Uneven);
    let long = refusals::unless(n <= most, Refusal::TooLong);
    let strange = refusals::unless(refusals::within(column, bound), Refusal::OutOfRange);
    let falling = refusals::rising(codes);
    let smallest = refusals::sooner(
        refusals::sooner(falling, long),
        refusals::sooner(strange, uneven),
    );
    [
        refusals::number(&uneven),
        refusals::number(&long),
        refusals::number(&strange),
        refusals::number(&falling),
        refusals::number(&smallest),
    ]
}

// Makes the calls of a case and compares. Its rooms are its own, as in `replay_join`.
fn replay(body: &[u8]) -> Outcome {
    let mut at: usize = 0;
    let mut three = [0u32; 3];
    let mut room = [0u32; 4200];
    let given = columns::take_stored(body, &mut at, &mut three).len();
    let column = columns::view_u8(body, &mut at, 4200);
    let bound = columns::view_u8(body, &mut at, 1);
    let codes = columns::take_stored(body, &mut at, &mut room);
    let got = numbers(
        three[0],
        three[1],
        three[2],
        column,
        cases::first(bound, 0),
        codes,
    );
    let agrees = cases::same_stored(body, &mut at, &got);
    let formed = (given == 3) & ((bound.len() == 1) & (at == body.len()));
    tallies::judged(formed, agrees)
}

// 4,200 bytes, 4,200 codes and the small columns with their heads fit.
fn main() {
    let mut room = [0u8; 24576];
    replays::run(b"replay_refusals", &mut room, replay);
}
