// Replays cases of the fallback plan. Go in: masks u32 x5 (init, medi, fina, isol, rlig); font codes u32, font glyphs u32; shaping codes u16, forms
// u16 (four a row: init, medi, fina, isol); components u16, those of one row behind those of the other, and ligatures u16 of the lists of 3, of 2
// and of 2 components; area u8 before the call. Come out: number u8; count u8; masks u32 x7, lengths u32 x7; area.
#![tactic(auto)]

use fallback::FallbackPlan;
use tallies::Outcome;

// Makes the call of a case and compares. Its rooms are its own, as in `replay_join`.
fn replay(body: &[u8]) -> Outcome {
    let mut at: usize = 0;
    let mut masks = [0u32; 5];
    let mut codes_room = [0u32; 4096];
    let mut glyphs_room = [0u32; 4096];
    let mut shaping_room = [0u16; 1040];
    let mut forms_room = [0u16; 4160];
    let mut three_components_room = [0u16; 3120];
    let mut three_ligatures_room = [0u16; 1040];
    let mut two_components_room = [0u16; 2080];
    let mut two_ligatures_room = [0u16; 1040];
    let mut mark_components_room = [0u16; 2080];
    let mut mark_ligatures_room = [0u16; 1040];
    let mut area_room = [0u8; 132000];
    let given = columns::take_stored(body, &mut at, &mut masks).len();
    let codes = columns::take_stored(body, &mut at, &mut codes_room);
    let glyphs = columns::take_stored(body, &mut at, &mut glyphs_room);
    let shaping = columns::take_stored(body, &mut at, &mut shaping_room);
    let forms = columns::take_stored(body, &mut at, &mut forms_room);
    let three_components = columns::take_stored(body, &mut at, &mut three_components_room);
    let three_ligatures = columns::take_stored(body, &mut at, &mut three_ligatures_room);
    let two_components = columns::take_stored(body, &mut at, &mut two_components_room);
    let two_ligatures = columns::take_stored(body, &mut at, &mut two_ligatures_room);
    let mark_components = columns::take_stored(body, &mut at, &mut mark_components_room);
    let mark_ligatures = columns::take_stored(body, &mut at, &mut mark_ligatures_room);
    let area = columns::take_stored(body, &mut at, &mut area_room);
    let answer = FallbackPlan::new(
        masks,
        codes,
        glyphs,
        shaping,
        forms,
        three_components,
        three_ligatures,
        two_components,
        two_ligatures,
        mark_components,
        mark_ligatures,
        area,
    );
    let numbered = cases::same_stored(body, &mut at, &[refusals::number(&answer)]);
    // A refusal says zeros.
    let plan = answer.unwrap_or(FallbackPlan {
        count: 0,
        masks: [0; 7],
        lengths: [0; 7],
    });
    // The count is in a byte: what is past them all becomes the last, which no plan has.
    let count = u8::try_from(plan.count).unwrap_or(u8::MAX);
    let counted = cases::same_stored(body, &mut at, &[count]);
    let masked = cases::same_stored(body, &mut at, &plan.masks);
    let measured = cases::same_stored(body, &mut at, &plan.lengths);
    let written = cases::same_stored(body, &mut at, area);
    let formed = (given == 5) & (at == body.len());
    let told = numbered & (counted & (masked & measured));
    tallies::judged(formed, told & written)
}

// A map of 4,096 codes, rule lists of 1,040 rows, and an area of 132,000 bytes before and after the call, fit with their heads.
fn main() {
    let mut room = [0u8; 335872];
    replays::run(b"replay_plan", &mut room, replay);
}
