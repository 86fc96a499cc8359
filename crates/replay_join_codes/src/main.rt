// Replays cases of lines joined by codes. Go in: mongolian u8; features u32 x7; pre codes u32, pre categories u8; post codes, post categories;
// codes u32, categories u8, base masks u32; actions u8 and masks u32 before the call. Come out: number u8; actions, masks.
#![tactic(auto)]

use lines::Manner;
use tallies::Outcome;

// Makes the call of a case and compares. Its rooms are its own, as in `replay_join`.
fn replay(body: &[u8]) -> Outcome {
    let mut at: usize = 0;
    let mut features = [0u32; 7];
    let mut pre_room = [0u32; 80];
    let mut post_room = [0u32; 80];
    let mut codes_room = [0u32; 4200];
    let mut base_room = [0u32; 4200];
    let mut actions_room = [0u8; 4200];
    let mut masks_room = [0u32; 4200];
    let mongolian = columns::view_u8(body, &mut at, 1);
    let given = columns::take_stored(body, &mut at, &mut features).len();
    let pre_codes = columns::take_stored(body, &mut at, &mut pre_room);
    let pre_categories = columns::view_u8(body, &mut at, 80);
    let post_codes = columns::take_stored(body, &mut at, &mut post_room);
    let post_categories = columns::view_u8(body, &mut at, 80);
    let codes = columns::take_stored(body, &mut at, &mut codes_room);
    let categories = columns::view_u8(body, &mut at, 4200);
    let base = columns::take_stored(body, &mut at, &mut base_room);
    let actions = columns::take_stored(body, &mut at, &mut actions_room);
    let masks = columns::take_stored(body, &mut at, &mut masks_room);
    let verdict = coded::join_codes(
        codes,
        categories,
        pre_codes,
        pre_categories,
        post_codes,
        post_categories,
        base,
        Manner {
            features,
            mongolian: cases::first(mongolian, 0) == 1,
        },
        actions,
        masks,
    );
    let number = cases::same_stored(body, &mut at, &[refusals::number(&verdict)]);
    let acted = cases::same_stored(body, &mut at, actions);
    let masked = cases::same_stored(body, &mut at, masks);
    let formed = cases::is_flag(mongolian) & ((given == 7) & (at == body.len()));
    tallies::judged(formed, number & (acted & masked))
}

// A line of 4,200 records before and after the call, and contexts of 80, fit with their heads.
fn main() {
    let mut room = [0u8; 98304];
    replays::run(b"replay_join_codes", &mut room, replay);
}
