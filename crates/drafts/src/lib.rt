// Drafts: a plan while it is made. Lookups are written one behind the other into memory that no customer lent, so that nothing is written there before it is known that all of them go in.
#![tactic(auto)]

ghost use Rattle.std.specs.Prelude.{◌≡◌, true, [], ◌∷◌, cond, ◌+◌, ◌*◌, ◌<◌, ◌≤◌, eqb, length};
ghost use Rattle.layouts.specs.Lookups.{lookup_lent, width, known, fits};
ghost use Rattle.layouts.specs.Written.{Writing};
ghost use Rattle.drafts.specs.Entries.{rule_limit, most};
ghost use Rattle.drafts.specs.Drafted.{begun, noted, Roomy, Added};

use layouts::{Kind, Written};

// Rules of a lookup of a plan, at most.
pub const RULE_LIMIT: usize = 1024;

// Flags of a lookup that passes over marks.
pub const IGNORE_MARKS: u16 = 8;

// Flags of a lookup that replaces marks, and passes over nothing.
pub const NO_FLAGS: u16 = 0;

// A lookup in the columns that its writer takes.
#[derive(Clone, Copy)]
pub struct Columns<'a> {
    pub kind: Kind,
    pub flags: u16,
    pub glyphs: &'a [u16],
    pub substitutes: &'a [u16],
    pub ghost named: { known kind ≡ true },
    pub ghost even: { length glyphs.now ≡ length substitutes.now * width kind },
    pub ghost few: { length substitutes.now ≤ rule_limit },
}

// Writes a lookup of either kind. Its columns are passed one by one, since only so it is known that what they have is of 16 bits.
fn serialize(
    kind: Kind,
    flags: u16,
    glyphs: &[u16],
    substitutes: &[u16],
    area: &mut [u8],
) -> Written
    ensures written { let l = lookup_lent flags kind glyphs substitutes in
        Writing l area.old result area.new }
    ensures small { (fits glyphs.now ≡ true) × (fits substitutes.now ≡ true) }
{
    match kind {
        Kind::Single => singles::serialize_single_lookup(glyphs, substitutes, flags, area),
        Kind::Ligature(n) => {
            ligatures::serialize_ligature_lookup(n, glyphs, substitutes, flags, area)
        }
    }
}

// The entries so far: their masks, how many bytes each lookup has, and where the bytes of the last end.
// Two columns and how many of their places are taken, as `tt_fallback_plan` gives them to C: without a heap there is no Vec.
#[derive(Clone, Copy)]
pub struct Draft {
    pub count: usize,
    pub end: usize,
    pub masks: [u32; 7],
    pub lengths: [u32; 7],
}

impl Draft {
    ghost use Rattle.drafts.specs.Lent.{entry_in};

    // No entry.
    pub fn new() -> Draft
        ensures { result ≡ begun }
    {
        Draft {
            count: 0,
            end: 0,
            masks: [0; 7],
            lengths: [0; 7],
        }
    }

    // One entry more, whose lookup has `length` bytes.
    fn with(mut self, mask: u32, length: u32) -> Draft
        requires { (self.count < 7) × (self.end + length < 4294967296) }
        ensures { result ≡ noted self mask length }
    {
        let at = self.count;
        self.masks[at] = mask;
        self.lengths[at] = length;
        self.count = at + 1;
        self.end = self.end + length as usize;
        self
    }

    // Writes a lookup behind the others, and adds its entry.
    pub fn push(self, mask: u32, columns: Columns, scratch: &mut [u8]) -> Draft
        requires { Roomy columns.kind self scratch.old }
        ensures { Added (entry_in mask columns.entry ∷ []) (most columns.entry.kind) self scratch.old result scratch.new }
    {
        let written = serialize(
            columns.kind,
            columns.flags,
            columns.glyphs,
            columns.substitutes,
            &mut scratch[self.end..],
        );
        self.with(mask, layouts::length(written) as u32)
    }

    // Adds a lookup whose list has rules, unless it has no mask.
    pub fn add_direct_lookup(self, mask: u32, columns: Columns, scratch: &mut [u8]) -> Draft
        requires { Roomy columns.kind self scratch.old }
        ensures { Added (cond (eqb mask 0) [] (entry_in mask columns.entry ∷ [])) (most columns.entry.kind) self scratch.old result scratch.new }
    {
        if mask == 0 {
            return self;
        }
        self.push(mask, columns, scratch)
    }
}
