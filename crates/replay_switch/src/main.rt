// Replays cases of the switch of the fallback. Go in: arabic u8; needs u8 x4 (isol, fina, medi, init). Comes out: fallback u8.
#![tactic(auto)]

use fallback::Needs;
use tallies::Outcome;

// Makes the call of a case and compares.
fn replay(body: &[u8]) -> Outcome {
    let mut at: usize = 0;
    let mut needs = [0u8; 4];
    let arabic = columns::view_u8(body, &mut at, 1);
    let given = columns::take_stored(body, &mut at, &mut needs).len();
    let on = fallback::do_fallback(
        cases::first(arabic, 0) == 1,
        Needs {
            isol: needs[0] == 1,
            fina: needs[1] == 1,
            medi: needs[2] == 1,
            init: needs[3] == 1,
        },
    );
    let agrees = cases::same_stored(body, &mut at, &[on as u8]);
    let are_flags = needs.iter().all(|need| *need < 2);
    let formed = (cases::is_flag(arabic) & are_flags) & ((given == 4) & (at == body.len()));
    tallies::judged(formed, agrees)
}

// Three columns of at most four bytes fit with their heads.
fn main() {
    let mut room = [0u8; 64];
    replays::run(b"replay_switch", &mut room, replay);
}
