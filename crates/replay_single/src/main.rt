// Replays cases of written single lookups. Go in: flags u16; glyphs u16, substitutes u16; area u8 before the call. Come out: number u8;
// length u32; area.
#![tactic(auto)]

use tallies::Outcome;

// Makes the call of a case and compares. Its rooms are its own, as in `replay_join`.
fn replay(body: &[u8]) -> Outcome {
    let mut at: usize = 0;
    let mut flags = [0u16; 1];
    let mut glyphs_room = [0u16; 33000];
    let mut substitutes_room = [0u16; 33000];
    let mut area_room = [0u8; 132000];
    let given = columns::take_stored(body, &mut at, &mut flags).len();
    let glyphs = columns::take_stored(body, &mut at, &mut glyphs_room);
    let substitutes = columns::take_stored(body, &mut at, &mut substitutes_room);
    let area = columns::take_stored(body, &mut at, &mut area_room);
    let answer = singles::serialize_single_lookup(glyphs, substitutes, flags[0], area);
    let numbered = cases::same_stored(body, &mut at, &[refusals::number(&answer)]);
    let counted = cases::same_stored(body, &mut at, &[cases::narrow(layouts::length(answer))]);
    let written = cases::same_stored(body, &mut at, area);
    let formed = (given == 1) & (at == body.len());
    tallies::judged(formed, numbered & (counted & written))
}

// Columns of 33,000 glyphs, and an area of 132,000 bytes before and after the call, fit with their heads.
fn main() {
    let mut room = [0u8; 397312];
    replays::run(b"replay_single", &mut room, replay);
}
