// Replays cases of stretched lines. Go in: recorded u8; right to left u8; glyphs u32, widths i32, categories u8, ignorables u8, actions u8,
// advances i32, offsets i32; the seven output columns before the call, in the same order. Come out: number u8; length u32; the seven
// output columns.
#![tactic(auto)]

use tallies::Outcome;

// Makes the call of a case and compares. Its rooms are its own, as in `replay_join`.
fn replay(body: &[u8]) -> Outcome {
    let mut at: usize = 0;
    let mut glyphs_room = [0u32; 4200];
    let mut widths_room = [0i32; 4200];
    let mut advances_room = [0i32; 4200];
    let mut offsets_room = [0i32; 4200];
    let mut to_glyphs_room = [0u32; 16400];
    let mut to_widths_room = [0i32; 16400];
    let mut to_categories_room = [0u8; 16400];
    let mut to_ignorables_room = [0u8; 16400];
    let mut to_actions_room = [0u8; 16400];
    let mut to_advances_room = [0i32; 16400];
    let mut to_offsets_room = [0i32; 16400];
    let recorded = columns::view_u8(body, &mut at, 1);
    let rtl = columns::view_u8(body, &mut at, 1);
    let glyphs = columns::take_stored(body, &mut at, &mut glyphs_room);
    let widths = columns::take_stored(body, &mut at, &mut widths_room);
    let categories = columns::view_u8(body, &mut at, 4200);
    let ignorables = columns::view_u8(body, &mut at, 4200);
    let actions = columns::view_u8(body, &mut at, 4200);
    let advances = columns::take_stored(body, &mut at, &mut advances_room);
    let offsets = columns::take_stored(body, &mut at, &mut offsets_room);
    let to_glyphs = columns::take_stored(body, &mut at, &mut to_glyphs_room);
    let to_widths = columns::take_stored(body, &mut at, &mut to_widths_room);
    let to_categories = columns::take_stored(body, &mut at, &mut to_categories_room);
    let to_ignorables = columns::take_stored(body, &mut at, &mut to_ignorables_room);
    let to_actions = columns::take_stored(body, &mut at, &mut to_actions_room);
    let to_advances = columns::take_stored(body, &mut at, &mut to_advances_room);
    let to_offsets = columns::take_stored(body, &mut at, &mut to_offsets_room);
    let answer = stretching::stretch(
        cases::first(recorded, 0) == 1,
        cases::first(rtl, 0) == 1,
        glyphs,
        widths,
        categories,
        ignorables,
        actions,
        advances,
        offsets,
        to_glyphs,
        to_widths,
        to_categories,
        to_ignorables,
        to_actions,
        to_advances,
        to_offsets,
    );
    let numbered = cases::same_stored(body, &mut at, &[refusals::number(&answer)]);
    let counted = cases::same_stored(body, &mut at, &[cases::narrow(answer.unwrap_or(0))]);
    let glyphs_same = cases::same_stored(body, &mut at, to_glyphs);
    let widths_same = cases::same_stored(body, &mut at, to_widths);
    let categories_same = cases::same_stored(body, &mut at, to_categories);
    let ignorables_same = cases::same_stored(body, &mut at, to_ignorables);
    let actions_same = cases::same_stored(body, &mut at, to_actions);
    let advances_same = cases::same_stored(body, &mut at, to_advances);
    let offsets_same = cases::same_stored(body, &mut at, to_offsets);
    let kept = glyphs_same & (widths_same & (categories_same & (ignorables_same & actions_same)));
    let formed = cases::is_flag(recorded) & (cases::is_flag(rtl) & (at == body.len()));
    tallies::judged(
        formed,
        numbered & (counted & (kept & (advances_same & offsets_same))),
    )
}

// Lends the room to all cases. (A function of its own: the check runs out of stack where `main` makes a slice of so large a room.)
fn run(room: &mut [u8; 704512]) {
    replays::run(b"replay_stretch", room, replay);
}

// A line of 4,200 records, and outputs of 16,400 before and after the call, fit with their heads.
fn main() {
    let mut room = [0u8; 704512];
    run(&mut room);
}
