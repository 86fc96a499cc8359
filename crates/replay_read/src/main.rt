// Replays cases of lookups that are read back. Go in: bytes u8; glyphs u16 (or flat components) and substitutes u16 (or ligatures) before the
// call. Come out: number u8; kind u8 (0 refused, 1 single, 4 ligature); number of components u8 (0 unless ligature); flags u16; length u32
// (rules); glyphs, substitutes.
#![tactic(auto)]

use reading::Lookup;
use tallies::Outcome;

// A lookup as a case has it: OpenType's number of its kind, its number of components, its flags, and how many rules it has.
#[derive(Clone, Copy, Default)]
struct Report {
    kind: u8,
    components: u8,
    flags: u16,
    len: u32,
}

fn told(lookup: Lookup) -> Report {
    let kind = lookup.kind;
    Report {
        kind: reading::type_of(kind),
        components: reading::components_of(kind),
        flags: lookup.flags,
        len: cases::narrow(lookup.len),
    }
}

// Makes the call of a case and compares. Its rooms are its own, as in `replay_join`.
fn replay(body: &[u8]) -> Outcome {
    let mut at: usize = 0;
    let mut glyphs_room = [0u16; 40000];
    let mut substitutes_room = [0u16; 33000];
    let bytes = columns::view_u8(body, &mut at, 132000);
    let glyphs = columns::take_stored(body, &mut at, &mut glyphs_room);
    let substitutes = columns::take_stored(body, &mut at, &mut substitutes_room);
    let answer = reading::read_lookup(bytes, glyphs, substitutes);
    // A refused call says nothing beside its number.
    let what = answer.map(told).unwrap_or_default();
    let numbered = cases::same_stored(body, &mut at, &[refusals::number(&answer)]);
    let named = cases::same_stored(body, &mut at, &[what.kind]);
    let counted = cases::same_stored(body, &mut at, &[what.components]);
    let flagged = cases::same_stored(body, &mut at, &[what.flags]);
    let measured = cases::same_stored(body, &mut at, &[what.len]);
    let glyphs_same = cases::same_stored(body, &mut at, glyphs);
    let substitutes_same = cases::same_stored(body, &mut at, substitutes);
    let said_same = numbered & (named & (counted & (flagged & measured)));
    tallies::judged(
        at == body.len(),
        said_same & (glyphs_same & substitutes_same),
    )
}

// 132,000 bytes, and columns of 40,000 components and 33,000 substitutes before and after the call, fit with their heads.
fn main() {
    let mut room = [0u8; 425984];
    replays::run(b"replay_read", &mut room, replay);
}
