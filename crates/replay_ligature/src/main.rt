// Replays cases of written ligature lookups. Go in: number of components u8; flags u16; components u16, those of one rule behind those of the
// other, ligatures u16; area u8 before the call. Come out: number u8; length u32; area.
#![tactic(auto)]

use tallies::Outcome;

// Makes the call of a case and compares. Its rooms are its own, as in `replay_join`.
fn replay(body: &[u8]) -> Outcome {
    let mut at: usize = 0;
    let mut flags = [0u16; 1];
    let mut components_room = [0u16; 40000];
    let mut ligatures_room = [0u16; 16500];
    let mut area_room = [0u8; 132000];
    let n = columns::view_u8(body, &mut at, 1);
    let given = columns::take_stored(body, &mut at, &mut flags).len();
    let components = columns::take_stored(body, &mut at, &mut components_room);
    let ligatures = columns::take_stored(body, &mut at, &mut ligatures_room);
    let area = columns::take_stored(body, &mut at, &mut area_room);
    let answer = ligatures::serialize_ligature_lookup(
        cases::first(n, 0),
        components,
        ligatures,
        flags[0],
        area,
    );
    let numbered = cases::same_stored(body, &mut at, &[refusals::number(&answer)]);
    let counted = cases::same_stored(body, &mut at, &[cases::narrow(layouts::length(answer))]);
    let written = cases::same_stored(body, &mut at, area);
    let formed = (n.len() == 1) & ((given == 1) & (at == body.len()));
    tallies::judged(formed, numbered & (counted & written))
}

// Columns of 40,000 components and 16,500 ligatures, and an area of 132,000 bytes before and after the call, fit with their heads.
fn main() {
    let mut room = [0u8; 380928];
    replays::run(b"replay_ligature", &mut room, replay);
}
