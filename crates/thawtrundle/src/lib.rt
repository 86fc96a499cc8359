// Thawtrundle: every public call under a plain name, for C and Rust to link (include/thawtrundle.h, bindings/rust).
//
// A wrapper does nothing but hand on. It takes a yes-or-no as a byte, 0 for no, since C may hand over any; it gives the number of refusal, 0 for
// an accepted call, and all else that is answered through numbers lent for that, zeros with a refusal. Its statement is the call's own equation.
#![tactic(auto)]

ghost use Rattle.std.specs.Prelude.{◌≡◌};
ghost use Rattle.refusals.specs.Columns.{yes};
ghost use Rattle.refusals.specs.Left.{After};
ghost use Rattle.lines.specs.Held.{setting_lent, line_mut_lent, line_all_mut_lent};
ghost use Rattle.lines.specs.Joined.{join_after};
ghost use Rattle.replacing.specs.Replaced.{request_of, replace_after};
ghost use Rattle.marks.specs.Reordered.{reorder_request, marks_lent, reorder_after};
ghost use Rattle.recording.specs.Recorded.{record_request, record_outcome, record_after};
ghost use Rattle.runs.specs.Records.{columns_lent, columns_mut_lent};
ghost use Rattle.stretching.specs.Stretching.{stretched_limit, stretch_after};
ghost use Rattle.layouts.specs.declared.Kind.TheVariants.{Single, Ligature};
ghost use Rattle.layouts.specs.Lookups.{lookup_lent};
ghost use Rattle.layouts.specs.Written.{write_outcome, write_after};
ghost use Rattle.reading.specs.Read.{list_lent, read_after};
ghost use Rattle.fallback.specs.Plan.{inputs_lent};
ghost use Rattle.fallback.specs.Planned.{plan_after};
ghost use Rattle.fallback.specs.Switch.{fallback_on};
ghost use Rattle.thawtrundle.specs.Told.{manner_lent, told, told_of, seen, line_asked, line_told, read_as, plan_told, needs_of};

use fallback::{FallbackPlan, Needs};
use letters::{Category, Code, JoiningType};
use lines::Manner;
use marks::Merged;
use replacing::Request;

// Joins a line (`lines::join_line`).
#[unsafe(no_mangle)]
pub extern "C" fn tt_join_line(
    codes: &[u32],
    types: &[u8],
    categories: &[u8],
    pre_types: &[u8],
    pre_categories: &[u8],
    post_types: &[u8],
    post_categories: &[u8],
    base: &[u32],
    features: &[u32; 7],
    mongolian: u8,
    actions: &mut [u8],
    masks: &mut [u32],
) -> u8
    ensures { let s = setting_lent pre_types pre_categories post_types post_categories (manner_lent features mongolian) in
        let l = line_mut_lent codes types categories base actions masks in
        After result l.exit ≡ join_after s l.entry }
{
    let features = *features;
    let verdict = lines::join_line(
        codes,
        types,
        categories,
        pre_types,
        pre_categories,
        post_types,
        post_categories,
        base,
        Manner {
            features,
            mongolian: mongolian != 0,
        },
        actions,
        masks,
    );
    refusals::number(&verdict)
}

// Replaces a letter of a held line (`replacing::replace_letter`).
#[unsafe(no_mangle)]
pub extern "C" fn tt_replace_letter(
    codes: &mut [u32],
    types: &mut [u8],
    categories: &mut [u8],
    pre_types: &[u8],
    pre_categories: &[u8],
    post_types: &[u8],
    post_categories: &[u8],
    base: &[u32],
    features: &[u32; 7],
    mongolian: u8,
    actions: &mut [u8],
    masks: &mut [u32],
    place: usize,
    code: u32,
    joining_type: u8,
    category: u8,
) -> u8
    ensures { let s = setting_lent pre_types pre_categories post_types post_categories (manner_lent features mongolian) in
        let q = request_of place code joining_type category in
        let l = line_all_mut_lent codes types categories base actions masks in
        After result l.exit ≡ replace_after s q l.entry }
{
    let features = *features;
    let verdict = replacing::replace_letter(
        codes,
        types,
        categories,
        pre_types,
        pre_categories,
        post_types,
        post_categories,
        base,
        Manner {
            features,
            mongolian: mongolian != 0,
        },
        actions,
        masks,
        Request {
            place,
            code: Code(code),
            joining_type: JoiningType(joining_type),
            category: Category(category),
        },
    );
    refusals::number(&verdict)
}

// Reorders the modifier marks of a part of a line (`marks::reorder_modifier_combining_marks`).
#[unsafe(no_mangle)]
pub extern "C" fn tt_reorder_modifier_combining_marks(
    codes: &mut [u32],
    classes: &mut [u8],
    start: usize,
    end: usize,
    low: u8,
    high: u8,
    count: &mut usize,
    ranges: &mut [usize; 4],
) -> u8
    ensures { let c = marks_lent codes classes in
        After result (told count.new ranges.new c.exit) ≡ seen told_of (reorder_after (reorder_request start end low high) c.entry) }
{
    match marks::reorder_modifier_combining_marks(codes, classes, start, end, low, high) {
        Ok(merged) => match merged {
            Merged::Nothing => {
                *count = 0;
                *ranges = [0, 0, 0, 0];
                0
            }
            Merged::One(a) => {
                *count = 1;
                *ranges = [a.from, a.to, 0, 0];
                0
            }
            Merged::Two(a, b) => {
                *count = 2;
                *ranges = [a.from, a.to, b.from, b.to];
                0
            }
        },
        Err(refusal) => {
            *count = 0;
            *ranges = [0, 0, 0, 0];
            refusal.number()
        }
    }
}

// Records what `stch` has multiplied (`recording::record_stch`).
#[unsafe(no_mangle)]
pub extern "C" fn tt_record_stch(
    mask: u32,
    multiplied: &[u8],
    components: &[u8],
    actions: &mut [u8],
    recorded: &mut bool,
) -> u8
    ensures { let q = record_request mask multiplied.now components.now in
        After result (record_outcome recorded.new actions.new) ≡ record_after q actions.old }
{
    let answer = recording::record_stch(mask, multiplied, components, actions);
    *recorded = answer.unwrap_or(false);
    refusals::number(&answer)
}

// Stretches the recorded runs of a line (`stretching::stretch`).
#[unsafe(no_mangle)]
pub extern "C" fn tt_stretch(
    recorded: u8,
    rtl: u8,
    glyphs: &[u32],
    widths: &[i32],
    categories: &[u8],
    ignorables: &[u8],
    actions: &[u8],
    advances: &[i32],
    offsets: &[i32],
    to_glyphs: &mut [u32],
    to_widths: &mut [i32],
    to_categories: &mut [u8],
    to_ignorables: &mut [u8],
    to_actions: &mut [u8],
    to_advances: &mut [i32],
    to_offsets: &mut [i32],
    length: &mut usize,
) -> u8
    ensures { let l = columns_lent glyphs widths categories ignorables actions advances offsets in
        let o = columns_mut_lent to_glyphs to_widths to_categories to_ignorables to_actions to_advances to_offsets in
        After result (line_told length o) ≡ stretch_after stretched_limit (line_asked recorded rtl l) o.entry }
{
    let answer = stretching::stretch(
        recorded != 0,
        rtl != 0,
        glyphs,
        widths,
        categories,
        ignorables,
        actions,
        advances,
        offsets,
        to_glyphs,
        to_widths,
        to_categories,
        to_ignorables,
        to_actions,
        to_advances,
        to_offsets,
    );
    *length = answer.unwrap_or(0);
    refusals::number(&answer)
}

// Writes a single lookup (`singles::serialize_single_lookup`).
#[unsafe(no_mangle)]
pub extern "C" fn tt_serialize_single_lookup(
    glyphs: &[u16],
    substitutes: &[u16],
    flags: u16,
    area: &mut [u8],
    length: &mut usize,
) -> u8
    ensures { let l = lookup_lent flags Single glyphs substitutes in
        After result (write_outcome length.new area.new) ≡ write_after l area.old }
{
    let written = singles::serialize_single_lookup(glyphs, substitutes, flags, area);
    *length = written.unwrap_or(0);
    refusals::number(&written)
}

// Writes a ligature lookup (`ligatures::serialize_ligature_lookup`).
#[unsafe(no_mangle)]
pub extern "C" fn tt_serialize_ligature_lookup(
    n: u8,
    components: &[u16],
    ligatures: &[u16],
    flags: u16,
    area: &mut [u8],
    length: &mut usize,
) -> u8
    ensures { let l = lookup_lent flags (Ligature n) components ligatures in
        After result (write_outcome length.new area.new) ≡ write_after l area.old }
{
    let written = ligatures::serialize_ligature_lookup(n, components, ligatures, flags, area);
    *length = written.unwrap_or(0);
    refusals::number(&written)
}

// Reads a lookup back (`reading::read_lookup`).
#[unsafe(no_mangle)]
pub extern "C" fn tt_read_lookup(
    bytes: &[u8],
    glyphs: &mut [u16],
    substitutes: &mut [u16],
    kind: &mut u8,
    components: &mut u8,
    flags: &mut u16,
    count: &mut usize,
) -> u8
    ensures { let list = list_lent glyphs substitutes in
        After result (read_as kind.new components.new flags.new count.new list.exit) ≡ read_after bytes.now list.entry }
{
    match reading::read_lookup(bytes, glyphs, substitutes) {
        Ok(lookup) => {
            let as_read = lookup.kind;
            *kind = reading::type_of(as_read);
            *components = reading::components_of(as_read);
            *flags = lookup.flags;
            *count = lookup.len;
            0
        }
        Err(refusal) => {
            *kind = 0;
            *components = 0;
            *flags = 0;
            *count = 0;
            refusal.number()
        }
    }
}

// Makes the fallback plan of a font (`fallback::FallbackPlan::new`).
#[unsafe(no_mangle)]
pub extern "C" fn tt_fallback_plan(
    masks: &[u32; 5],
    codes: &[u32],
    glyphs: &[u32],
    shaping: &[u16],
    forms: &[u16],
    three_components: &[u16],
    three_ligatures: &[u16],
    two_components: &[u16],
    two_ligatures: &[u16],
    mark_components: &[u16],
    mark_ligatures: &[u16],
    area: &mut [u8],
    count: &mut usize,
    entry_masks: &mut [u32; 7],
    entry_lengths: &mut [u32; 7],
) -> u8
    ensures { let i = inputs_lent masks.now codes glyphs shaping forms three_components three_ligatures two_components two_ligatures mark_components mark_ligatures in
        After result (plan_told count entry_masks entry_lengths area) ≡ plan_after i area.old }
{
    match FallbackPlan::new(
        *masks,
        codes,
        glyphs,
        shaping,
        forms,
        three_components,
        three_ligatures,
        two_components,
        two_ligatures,
        mark_components,
        mark_ligatures,
        area,
    ) {
        Ok(plan) => {
            let own_masks = plan.masks;
            let own_lengths = plan.lengths;
            *count = plan.count;
            *entry_masks = own_masks;
            *entry_lengths = own_lengths;
            0
        }
        Err(refusal) => {
            *count = 0;
            *entry_masks = [0; 7];
            *entry_lengths = [0; 7];
            refusal.number()
        }
    }
}

// Whether the fallback is used (`fallback::do_fallback`).
#[unsafe(no_mangle)]
pub extern "C" fn tt_do_fallback(arabic: u8, isol: u8, fina: u8, medi: u8, init: u8) -> bool
    ensures { result ≡ fallback_on (yes arabic) (needs_of (yes isol) (yes fina) (yes medi) (yes init)) }
{
    let needs = Needs {
        isol: isol != 0,
        fina: fina != 0,
        medi: medi != 0,
        init: init != 0,
    };
    fallback::do_fallback(arabic != 0, needs)
}
