// Singles: the public call that writes a single lookup.
#![tactic(auto)]

ghost use Rattle.layouts.specs.declared.Kind.TheVariants.{Single};
ghost use Rattle.layouts.specs.Lookups.{lookup_lent};
ghost use Rattle.layouts.specs.Written.{Writing};

use layouts::Written;
use refusals::Refusal;

// Substitutes of a single lookup, at most: the coverage begins behind them, at a byte of 16 bits.
const SINGLE_LIMIT: usize = 32764;

// Writes the lookup that puts each substitute in the place of its glyph at the start of `area`; says how many bytes it has.
pub fn serialize_single_lookup(
    glyphs: &[u16],
    substitutes: &[u16],
    flags: u16,
    area: &mut [u8],
) -> Written
    ensures { let l = lookup_lent flags Single glyphs substitutes in
        Writing l area.old result area.new }
{
    let n = substitutes.len();
    if glyphs.len() != n {
        return Err(Refusal::Uneven);
    }
    if SINGLE_LIMIT < n {
        return Err(Refusal::Offset);
    }
    if area.len() < 18 + 4 * n {
        return Err(Refusal::NoRoom);
    }
    let count = n as u16;
    let head = [1, flags, 1, 8, 2, 6 + 2 * count, count];
    let a = words::put_words(&head, area, 0);
    let b = words::put_words(substitutes, area, a);
    let coverage = [1, count];
    let c = words::put_words(&coverage, area, b);
    let end = words::put_words(glyphs, area, c);
    Ok(end)
}
