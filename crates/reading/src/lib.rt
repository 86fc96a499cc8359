// Reading: the public call that reads a lookup back into lent columns.
#![tactic(auto)]

ghost use Rattle.std.specs.Prelude.{◌≡◌, ◌≤◌};
ghost use Rattle.layouts.specs.declared.Kind.TheVariants.{Single, Ligature};
ghost use Rattle.recognizing.specs.Recognized.{Held};
ghost use Rattle.reading.specs.Read.{list_lent, type_of, components_of_lem, Reading};

use layouts::Kind;
use refusals::Refusal;

// A lookup as read: its flags, how many rules it has, and whether it is single, or ligature with its component number.
#[derive(Clone, Copy, Debug, PartialEq, Eq)]
pub struct Lookup {
    pub flags: u16,
    pub len: usize,
    pub kind: Kind,
}

// What the call answers.
pub type Answer = Result<Lookup, Refusal>;

// OpenType's number of a kind of lookup.
pub fn type_of(kind: Kind) -> u8
    ensures { result ≡ type_of kind }
{
    match kind {
        Kind::Single => 1,
        Kind::Ligature(_) => 4,
    }
}

// The component number of a kind of lookup, 0 of a single one.
pub fn components_of(kind: Kind) -> u8
    ensures { result ≡ components_of_lem kind }
{
    match kind {
        Kind::Single => 0,
        Kind::Ligature(n) => n,
    }
}

// The single lookup that the bytes are, if the columns have room for it.
fn read_single(bytes: &[u8], glyphs: &mut [u16], substitutes: &mut [u16]) -> Answer
    requires { Held Single bytes.now }
    ensures { let c = list_lent glyphs substitutes in
        Reading bytes.now c.entry result c.exit }
{
    let n = (bytes.len() - 18) / 4;
    if (glyphs.len() < n) | (substitutes.len() < n) {
        return Err(Refusal::NoRoom);
    }
    words::get_words(bytes, 18 + 2 * n, n, glyphs);
    words::get_words(bytes, 14, n, substitutes);
    let flags = words::u16_at(bytes, 2);
    Ok(Lookup {
        flags,
        len: n,
        kind: Kind::Single,
    })
}

// The ligature lookup that the bytes are, with `n` components, if the columns have room for it.
fn read_ligature(n: u8, bytes: &[u8], components: &mut [u16], ligatures: &mut [u16]) -> Answer
    requires { Held (Ligature n) bytes.now × ((2 ≤ n) × (n ≤ 3)) }
    ensures { let c = list_lent components ligatures in
        Reading bytes.now c.entry result c.exit }
{
    let width = usize::from(n);
    let sets = (usize::from(words::u16_at(bytes, 10)) - 6) / 2;
    let count = (bytes.len() - (18 + 6 * sets)) / (4 + 2 * width);
    if (components.len() < count * width) | (ligatures.len() < count) {
        return Err(Refusal::NoRoom);
    }
    filling::fill_sets(width, sets, bytes, components, ligatures);
    let flags = words::u16_at(bytes, 2);
    Ok(Lookup {
        flags,
        len: count,
        kind: Kind::Ligature(n),
    })
}

// Reads the lookup that the bytes are into two columns: its glyphs, or its components one rule behind the other, and its substitutes, or its ligatures.
pub fn read_lookup(bytes: &[u8], glyphs: &mut [u16], substitutes: &mut [u16]) -> Answer
    ensures { let c = list_lent glyphs substitutes in
        Reading bytes.now c.entry result c.exit }
{
    match recognizing::recognize(bytes) {
        None => Err(Refusal::NoLookup),
        Some(Kind::Single) => read_single(bytes, glyphs, substitutes),
        Some(Kind::Ligature(n)) => read_ligature(n, bytes, glyphs, substitutes),
    }
}
