// Replays cases of resolved types: types u8 and categories u8 go in, the resolved types u8 come out.
#![tactic(auto)]

use letters::{Category, JoiningType};
use tallies::Outcome;

// Resolves each record to the start of the room, as many as both columns and the room have; answers how many.
fn resolve(types: &[u8], categories: &[u8], room: &mut [u8]) -> usize {
    let n = types.len().min(categories.len()).min(room.len());
    for i in 0..n {
        room[i] = letters::get_joining_type(JoiningType(types[i]), Category(categories[i])).0;
    }
    n
}

// Makes the call of a case and compares. Its room is its own, as in `replay_join`.
fn replay(body: &[u8]) -> Outcome {
    let mut at: usize = 0;
    let mut room = [0u8; 4200];
    let types = columns::view_u8(body, &mut at, 4200);
    let categories = columns::view_u8(body, &mut at, 4200);
    let n = resolve(types, categories, &mut room);
    let agrees = cases::same_stored(body, &mut at, replays::front(&room, n));
    let formed = (types.len() == categories.len()) & (at == body.len());
    tallies::judged(formed, agrees)
}

// Three columns of 4,200 bytes and their heads fit.
fn main() {
    let mut room = [0u8; 16384];
    replays::run(b"replay_types", &mut room, replay);
}
