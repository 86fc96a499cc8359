// Coded: the public calls on a line that is held by codes and categories alone. No type is lent: each is looked up in Unicode's rows, into a room
// of the call's own, and then the call that is lent types is made.
#![tactic(auto)]

ghost use Rattle.std.specs.Prelude.{◌≡◌, map, ◌≤◌, length};
ghost use Rattle.laws.specs.Rows.{first};
ghost use Rattle.refusals.specs.Numbers.{said};
ghost use Rattle.listed.specs.Rows.{type_in};
ghost use Rattle.listed.specs.Listed.{listed};
ghost use Rattle.coded.specs.Coded.{asked_for, length_rows, coded_setting_lent, coded_line_mut_lent, coded_line_all_mut_lent, JoiningCodes, ReplacingCodes};

use letters::{Category, Code};
use lines::Manner;
use refusals::{Refusal, Verdict};
use replacing::Request;

// Letters of a context, at most, and of a line that is given the smaller room.
const SHORT: usize = 64;

// Records of a line that is given the larger room, at most.
const LONG: usize = refusals::LINE_LIMIT;

// What is asked for: a place, and the letter that comes to stand there.
#[derive(Clone, Copy, Debug, PartialEq, Eq)]
pub struct CodeRequest {
    pub place: usize,
    pub code: Code,
    pub category: Category,
}

// The refusals that go by lengths alone, of a line's columns and of its contexts': found before any type is looked up, so that all types have room.
fn measured(
    codes: usize,
    categories: usize,
    base: usize,
    actions: usize,
    masks: usize,
    pre_codes: usize,
    pre_categories: usize,
    post_codes: usize,
    post_categories: usize,
) -> Verdict
    ensures { said result ≡ first (length_rows codes categories base actions masks pre_codes pre_categories post_codes post_categories) }
{
    let even = ((codes == categories) & ((codes == base) & ((codes == actions) & (codes == masks))))
        & ((pre_codes == pre_categories) & (post_codes == post_categories));
    if !even {
        return Err(Refusal::Uneven);
    }
    let short = (codes <= refusals::LINE_LIMIT) & ((pre_codes <= SHORT) & (post_codes <= SHORT));
    if !short {
        return Err(Refusal::TooLong);
    }
    Ok(())
}

// The types of codes, at the start of a room lent for them; answers that part of it.
fn typed<'a>(codes: &[u32], room: &'a mut [u8]) -> &'a mut [u8]
    requires { length codes.now ≤ length room.old }
    ensures { result.now ≡ map (type_in listed) codes.now }
{
    let types = &mut room[..codes.len()];
    listed::types_of(codes, types);
    types
}

// Looks the types up into rooms lent for them, and joins.
fn join_typed(
    codes: &[u32],
    categories: &[u8],
    pre_codes: &[u32],
    pre_categories: &[u8],
    post_codes: &[u32],
    post_categories: &[u8],
    base: &[u32],
    manner: Manner,
    actions: &mut [u8],
    masks: &mut [u32],
    types: &mut [u8],
    pre_types: &mut [u8],
    post_types: &mut [u8],
) -> Verdict
    requires { (length codes.now ≤ length types.old) × (length pre_codes.now ≤ length pre_types.old) × (length post_codes.now ≤ length post_types.old) }
    ensures { let s = coded_setting_lent pre_codes pre_categories post_codes post_categories manner in
        let l = coded_line_mut_lent codes categories base actions masks in
        JoiningCodes s l.entry result l.exit }
{
    let own = typed(codes, types);
    let before = typed(pre_codes, pre_types);
    let behind = typed(post_codes, post_types);
    lines::join_line(
        codes,
        own,
        categories,
        before,
        pre_categories,
        behind,
        post_categories,
        base,
        manner,
        actions,
        masks,
    )
}

// Makes rooms for the types, for `ROOM` letters of the line, and joins.
fn join_in<const ROOM: usize>(
    codes: &[u32],
    categories: &[u8],
    pre_codes: &[u32],
    pre_categories: &[u8],
    post_codes: &[u32],
    post_categories: &[u8],
    base: &[u32],
    manner: Manner,
    actions: &mut [u8],
    masks: &mut [u32],
) -> Verdict
    requires { (ROOM ≤ 4096) × (length codes.now ≤ ROOM) × (length pre_codes.now ≤ 64) × (length post_codes.now ≤ 64) }
    ensures { let s = coded_setting_lent pre_codes pre_categories post_codes post_categories manner in
        let l = coded_line_mut_lent codes categories base actions masks in
        JoiningCodes s l.entry result l.exit }
{
    let mut types = [0u8; ROOM];
    let mut pre_types = [0u8; SHORT];
    let mut post_types = [0u8; SHORT];
    join_typed(
        codes,
        categories,
        pre_codes,
        pre_categories,
        post_codes,
        post_categories,
        base,
        manner,
        actions,
        masks,
        &mut types,
        &mut pre_types,
        &mut post_types,
    )
}

// Joins a line by codes and categories: writes the action and the mask of each record. The contexts have their nearest letters first.
pub fn join_codes(
    codes: &[u32],
    categories: &[u8],
    pre_codes: &[u32],
    pre_categories: &[u8],
    post_codes: &[u32],
    post_categories: &[u8],
    base: &[u32],
    manner: Manner,
    actions: &mut [u8],
    masks: &mut [u32],
) -> Verdict
    ensures { let s = coded_setting_lent pre_codes pre_categories post_codes post_categories manner in
        let l = coded_line_mut_lent codes categories base actions masks in
        JoiningCodes s l.entry result l.exit }
{
    let verdict = measured(
        codes.len(),
        categories.len(),
        base.len(),
        actions.len(),
        masks.len(),
        pre_codes.len(),
        pre_categories.len(),
        post_codes.len(),
        post_categories.len(),
    );
    verdict?;
    if codes.len() <= SHORT {
        return join_in::<SHORT>(
            codes,
            categories,
            pre_codes,
            pre_categories,
            post_codes,
            post_categories,
            base,
            manner,
            actions,
            masks,
        );
    }
    join_in::<LONG>(
        codes,
        categories,
        pre_codes,
        pre_categories,
        post_codes,
        post_categories,
        base,
        manner,
        actions,
        masks,
    )
}

// Looks the types up into rooms lent for them, and replaces.
fn replace_typed(
    codes: &mut [u32],
    categories: &mut [u8],
    pre_codes: &[u32],
    pre_categories: &[u8],
    post_codes: &[u32],
    post_categories: &[u8],
    base: &[u32],
    manner: Manner,
    actions: &mut [u8],
    masks: &mut [u32],
    request: CodeRequest,
    types: &mut [u8],
    pre_types: &mut [u8],
    post_types: &mut [u8],
) -> Verdict
    requires { (length codes.old ≤ length types.old) × (length pre_codes.now ≤ length pre_types.old) × (length post_codes.now ≤ length post_types.old) }
    ensures { let s = coded_setting_lent pre_codes pre_categories post_codes post_categories manner in
        let l = coded_line_all_mut_lent codes categories base actions masks in
        ReplacingCodes s (asked_for request) l.entry result l.exit }
{
    let held = typed(codes, types);
    let pre = typed(pre_codes, pre_types);
    let post = typed(post_codes, post_types);
    let code = request.code;
    let category = request.category;
    let joining_type = listed::joining_type(code);
    replacing::replace_letter(
        codes,
        held,
        categories,
        pre,
        pre_categories,
        post,
        post_categories,
        base,
        manner,
        actions,
        masks,
        Request {
            place: request.place,
            code,
            joining_type,
            category,
        },
    )
}

// Makes rooms for the types, for `ROOM` letters of the line, and replaces.
fn replace_in<const ROOM: usize>(
    codes: &mut [u32],
    categories: &mut [u8],
    pre_codes: &[u32],
    pre_categories: &[u8],
    post_codes: &[u32],
    post_categories: &[u8],
    base: &[u32],
    manner: Manner,
    actions: &mut [u8],
    masks: &mut [u32],
    request: CodeRequest,
) -> Verdict
    requires { (ROOM ≤ 4096) × (length codes.old ≤ ROOM) × (length pre_codes.now ≤ 64) × (length post_codes.now ≤ 64) }
    ensures { let s = coded_setting_lent pre_codes pre_categories post_codes post_categories manner in
        let l = coded_line_all_mut_lent codes categories base actions masks in
        ReplacingCodes s (asked_for request) l.entry result l.exit }
{
    let mut types = [0u8; ROOM];
    let mut pre_types = [0u8; SHORT];
    let mut post_types = [0u8; SHORT];
    replace_typed(
        codes,
        categories,
        pre_codes,
        pre_categories,
        post_codes,
        post_categories,
        base,
        manner,
        actions,
        masks,
        request,
        &mut types,
        &mut pre_types,
        &mut post_types,
    )
}

// Replaces the letter at a place of a held line by a code and a category: writes these, and the actions and masks that go by them. Contexts, feature
// masks and script are those that the line was joined with: where they change, join it again.
pub fn replace_code(
    codes: &mut [u32],
    categories: &mut [u8],
    pre_codes: &[u32],
    pre_categories: &[u8],
    post_codes: &[u32],
    post_categories: &[u8],
    base: &[u32],
    manner: Manner,
    actions: &mut [u8],
    masks: &mut [u32],
    request: CodeRequest,
) -> Verdict
    ensures { let s = coded_setting_lent pre_codes pre_categories post_codes post_categories manner in
        let l = coded_line_all_mut_lent codes categories base actions masks in
        ReplacingCodes s (asked_for request) l.entry result l.exit }
{
    let lengths = measured(
        codes.len(),
        categories.len(),
        base.len(),
        actions.len(),
        masks.len(),
        pre_codes.len(),
        pre_categories.len(),
        post_codes.len(),
        post_categories.len(),
    );
    lengths?;
    if codes.len() <= SHORT {
        return replace_in::<SHORT>(
            codes,
            categories,
            pre_codes,
            pre_categories,
            post_codes,
            post_categories,
            base,
            manner,
            actions,
            masks,
            request,
        );
    }
    replace_in::<LONG>(
        codes,
        categories,
        pre_codes,
        pre_categories,
        post_codes,
        post_categories,
        base,
        manner,
        actions,
        masks,
        request,
    )
}
