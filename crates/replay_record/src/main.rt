// Replays cases of recording for stretching. Go in: stch mask u32; multiplied u8, components u8; actions u8 before the call. Come out: number u8;
// recorded u8; actions.
#![tactic(auto)]

use tallies::Outcome;

// Makes the call of a case and compares. Its rooms are its own, as in `replay_join`.
fn replay(body: &[u8]) -> Outcome {
    let mut at: usize = 0;
    let mut mask = [0u32; 1];
    let mut actions_room = [0u8; 4200];
    let given = columns::take_stored(body, &mut at, &mut mask).len();
    let multiplied = columns::view_u8(body, &mut at, 4200);
    let components = columns::view_u8(body, &mut at, 4200);
    let actions = columns::take_stored(body, &mut at, &mut actions_room);
    let answer = recording::record_stch(mask[0], multiplied, components, actions);
    let numbered = cases::same_stored(body, &mut at, &[refusals::number(&answer)]);
    let told = cases::same_stored(body, &mut at, &[answer.unwrap_or(false) as u8]);
    let acted = cases::same_stored(body, &mut at, actions);
    let formed = (given == 1) & (at == body.len());
    tallies::judged(formed, numbered & (told & acted))
}

// A line of 4,200 records before and after the call fits with its heads.
fn main() {
    let mut room = [0u8; 20480];
    replays::run(b"replay_record", &mut room, replay);
}
