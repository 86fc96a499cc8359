// Thawtrundle by codes: the calls that look types up under plain names, for C and Rust to link (include/thawtrundle.h, bindings/rust).
//
// They are an archive of their own, beside crate thawtrundle's: in one archive `join_line` and `replace_letter` would have two callers each, the compiler
// would no longer lay them out inside `tt_join_line` and `tt_replace_letter`, and these would cost some 60 to 80 instructions more a call.
// As there, a wrapper does nothing but hand on.
#![tactic(auto)]

ghost use Rattle.std.specs.Prelude.{◌≡◌};
ghost use Rattle.refusals.specs.Left.{After};
ghost use Rattle.listed.specs.Rows.{type_in};
ghost use Rattle.listed.specs.Listed.{listed};
ghost use Rattle.coded.specs.Coded.{coded_request_of, typed_line, join_codes_after, replace_codes_after, coded_line_mut_lent, coded_line_all_mut_lent};
ghost use Rattle.thawtrundle_codes.specs.Asked.{setting_asked};

use coded::CodeRequest;
use letters::{Category, Code};
use lines::Manner;

// The joining type that Unicode lists for a code, 7 (X) if it lists none (`listed::joining_type`).
#[unsafe(no_mangle)]
pub extern "C" fn tt_joining_type(code: u32) -> u8
    ensures { result ≡ type_in listed code }
{
    let joining_type = listed::joining_type(Code(code));
    joining_type.0
}

// Joins a line by codes and categories (`coded::join_codes`).
#[unsafe(no_mangle)]
pub extern "C" fn tt_join_codes(
    codes: &[u32],
    categories: &[u8],
    pre_codes: &[u32],
    pre_categories: &[u8],
    post_codes: &[u32],
    post_categories: &[u8],
    base: &[u32],
    features: &[u32; 7],
    mongolian: u8,
    actions: &mut [u8],
    masks: &mut [u32],
) -> u8
    ensures { let s = setting_asked pre_codes pre_categories post_codes post_categories features mongolian in
        let l = coded_line_mut_lent codes categories base actions masks in
        After result (typed_line l.exit) ≡ join_codes_after s l.entry }
{
    let features = *features;
    let verdict = coded::join_codes(
        codes,
        categories,
        pre_codes,
        pre_categories,
        post_codes,
        post_categories,
        base,
        Manner {
            features,
            mongolian: mongolian != 0,
        },
        actions,
        masks,
    );
    refusals::number(&verdict)
}

// Replaces a letter of a held line by a code and a category (`coded::replace_code`).
#[unsafe(no_mangle)]
pub extern "C" fn tt_replace_code(
    codes: &mut [u32],
    categories: &mut [u8],
    pre_codes: &[u32],
    pre_categories: &[u8],
    post_codes: &[u32],
    post_categories: &[u8],
    base: &[u32],
    features: &[u32; 7],
    mongolian: u8,
    actions: &mut [u8],
    masks: &mut [u32],
    place: usize,
    code: u32,
    category: u8,
) -> u8
    ensures { let s = setting_asked pre_codes pre_categories post_codes post_categories features mongolian in
        let q = coded_request_of place code category in
        let l = coded_line_all_mut_lent codes categories base actions masks in
        After result (typed_line l.exit) ≡ replace_codes_after s q l.entry }
{
    let features = *features;
    let verdict = coded::replace_code(
        codes,
        categories,
        pre_codes,
        pre_categories,
        post_codes,
        post_categories,
        base,
        Manner {
            features,
            mongolian: mongolian != 0,
        },
        actions,
        masks,
        CodeRequest {
            place,
            code: Code(code),
            category: Category(category),
        },
    );
    refusals::number(&verdict)
}
