// Replays cases of reordered marks. Go in: codes u32, classes u8; start u32, end u32; the two lent class numbers u8 x2. Come out: number u8; ranges
// u32, start and end of each; codes, classes.
#![tactic(auto)]

use marks::Merged;
use tallies::Outcome;

// The column at the cursor has these ranges. (A place past all of 32 bits becomes the last, where no part ends.)
fn same_merged(body: &[u8], at: &mut usize, merged: Merged) -> bool {
    match merged {
        Merged::Nothing => cases::same_stored::<u32>(body, at, &[]),
        Merged::One(a) => cases::same_stored(
            body,
            at,
            &[cases::narrow(a.from), cases::narrow(a.to)],
        ),
        Merged::Two(a, b) => cases::same_stored(
            body,
            at,
            &[
                cases::narrow(a.from),
                cases::narrow(a.to),
                cases::narrow(b.from),
                cases::narrow(b.to),
            ],
        ),
    }
}

// Makes the call of a case and compares. Its rooms are its own, as in `replay_join`.
fn replay(body: &[u8]) -> Outcome {
    let mut at: usize = 0;
    let mut codes_room = [0u32; 4200];
    let mut classes_room = [0u8; 4200];
    let mut start_room = [0u32; 1];
    let mut end_room = [0u32; 1];
    let mut lent = [0u8; 2];
    let codes = columns::take_stored(body, &mut at, &mut codes_room);
    let classes = columns::take_stored(body, &mut at, &mut classes_room);
    let starts = columns::take_stored(body, &mut at, &mut start_room).len();
    let ends = columns::take_stored(body, &mut at, &mut end_room).len();
    let given = columns::take_stored(body, &mut at, &mut lent).len();
    let answer = marks::reorder_modifier_combining_marks(
        codes,
        classes,
        start_room[0] as usize,
        end_room[0] as usize,
        lent[0],
        lent[1],
    );
    let numbered = cases::same_stored(body, &mut at, &[refusals::number(&answer)]);
    let merged = same_merged(body, &mut at, answer.unwrap_or(Merged::Nothing));
    let coded = cases::same_stored(body, &mut at, codes);
    let classed = cases::same_stored(body, &mut at, classes);
    let formed = (starts == 1) & ((ends == 1) & ((given == 2) & (at == body.len())));
    tallies::judged(formed, numbered & (merged & (coded & classed)))
}

// A line of 4,200 records before and after the call fits with its heads.
fn main() {
    let mut room = [0u8; 49152];
    replays::run(b"replay_marks", &mut room, replay);
}
