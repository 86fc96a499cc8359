// Replays cases of letters replaced by codes. Go in: mongolian u8; features u32 x7; pre codes u32, pre categories u8; post codes, post
// categories; codes u32, categories u8, base masks u32; actions u8 and masks u32 before the call; place u32, code u32, category u8.
// Come out: number u8; codes, categories, actions, masks.
#![tactic(auto)]

use coded::CodeRequest;
use letters::{Category, Code};
use lines::Manner;
use tallies::Outcome;

// Makes the call of a case and compares. Its rooms are its own, as in `replay_join`.
fn replay(body: &[u8]) -> Outcome {
    let mut at: usize = 0;
    let mut features = [0u32; 7];
    let mut pre_room = [0u32; 80];
    let mut post_room = [0u32; 80];
    let mut codes_room = [0u32; 4200];
    let mut categories_room = [0u8; 4200];
    let mut base_room = [0u32; 4200];
    let mut actions_room = [0u8; 4200];
    let mut masks_room = [0u32; 4200];
    let mut place_room = [0u32; 1];
    let mut code_room = [0u32; 1];
    let mongolian = columns::view_u8(body, &mut at, 1);
    let given = columns::take_stored(body, &mut at, &mut features).len();
    let pre_codes = columns::take_stored(body, &mut at, &mut pre_room);
    let pre_categories = columns::view_u8(body, &mut at, 80);
    let post_codes = columns::take_stored(body, &mut at, &mut post_room);
    let post_categories = columns::view_u8(body, &mut at, 80);
    let codes = columns::take_stored(body, &mut at, &mut codes_room);
    let categories = columns::take_stored(body, &mut at, &mut categories_room);
    let base = columns::take_stored(body, &mut at, &mut base_room);
    let actions = columns::take_stored(body, &mut at, &mut actions_room);
    let masks = columns::take_stored(body, &mut at, &mut masks_room);
    let places = columns::take_stored(body, &mut at, &mut place_room).len();
    let new_codes = columns::take_stored(body, &mut at, &mut code_room).len();
    let category = columns::view_u8(body, &mut at, 1);
    let verdict = coded::replace_code(
        codes,
        categories,
        pre_codes,
        pre_categories,
        post_codes,
        post_categories,
        base,
        Manner {
            features,
            mongolian: cases::first(mongolian, 0) == 1,
        },
        actions,
        masks,
        CodeRequest {
            place: place_room[0] as usize,
            code: Code(code_room[0]),
            category: Category(cases::first(category, 0)),
        },
    );
    let number = cases::same_stored(body, &mut at, &[refusals::number(&verdict)]);
    let coded = cases::same_stored(body, &mut at, codes);
    let sorted = cases::same_stored(body, &mut at, categories);
    let acted = cases::same_stored(body, &mut at, actions);
    let masked = cases::same_stored(body, &mut at, masks);
    let singles = (places == 1) & ((new_codes == 1) & (category.len() == 1));
    let formed = cases::is_flag(mongolian) & ((given == 7) & (singles & (at == body.len())));
    tallies::judged(formed, number & (coded & (sorted & (acted & masked))))
}

// A line of 4,200 records before and after the call, and contexts of 80, fit with their heads.
fn main() {
    let mut room = [0u8; 114688];
    replays::run(b"replay_replace_codes", &mut room, replay);
}
