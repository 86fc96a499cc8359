// Replays cases of joining types: codes u32 go in, their types u8 come out.
#![tactic(auto)]

use letters::Code;
use tallies::Outcome;

// Whether each code, asked for alone, has the type that the column has.
fn each_alone(codes: &[u32], types: &[u8]) -> bool {
    codes.iter().zip(types).all(|(code, alone)| listed::joining_type(Code(*code)).0 == *alone)
}

// Makes both calls: types of the column as a whole, then code by code. Answers whether these agree.
fn look_up(codes: &[u32], types: &mut [u8]) -> bool {
    if codes.len() != types.len() {
        return false;
    }
    listed::types_of(codes, types);
    each_alone(codes, types)
}

// Makes the calls of a case and compares. Its rooms are its own, as in `replay_join`.
fn replay(body: &[u8]) -> Outcome {
    let mut at: usize = 0;
    let mut codes_room = [0u32; 4200];
    let mut room = [0u8; 4200];
    let codes = columns::take_stored(body, &mut at, &mut codes_room);
    let types = &mut room[..codes.len()];
    let alone = look_up(codes, types);
    let agrees = cases::same_stored(body, &mut at, types);
    tallies::judged(at == body.len(), agrees & alone)
}

// 4,200 codes, their types and the heads of both columns fit.
fn main() {
    let mut room = [0u8; 24576];
    replays::run(b"replay_type", &mut room, replay);
}
