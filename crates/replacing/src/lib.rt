// Replacing: the public call that replaces a letter of a held line. Beyond its tests it costs what stands around the place.
#![tactic(auto)]

ghost use Rattle.std.specs.Prelude.{◌≡◌, false, []};
ghost use Rattle.laws.specs.Rows.{first};
ghost use Rattle.refusals.specs.Numbers.{said};
ghost use Rattle.lines.specs.Held.{setting_now, line_all_mut_now, manner_of, setting_lent, line_lent, line_all_mut_lent};
ghost use Rattle.lines.specs.Joined.{frame_of};
ghost use Rattle.replacing.specs.Replaced.{asked, replaced_line, replace_rows, replace_refusal, Replacing};

use joining::KnownLetters;
use letters::{Action, Category, Code, JoiningType};
use lines::{Frame, LentLetters, Manner};
use refusals::{Refusal, Verdict};

// What is asked for: a place, and the letter that comes to stand there.
#[derive(Clone, Copy, Debug, PartialEq, Eq)]
pub struct Request {
    pub place: usize,
    pub code: Code,
    pub joining_type: JoiningType,
    pub category: Category,
}

// Replaces a letter where it is not refused.
fn replace_accepted<'a>(
    codes: &mut [u32],
    types: &mut [u8],
    categories: &mut [u8],
    pre_types: &'a [u8],
    pre_categories: &'a [u8],
    post_types: &'a [u8],
    post_categories: &'a [u8],
    base: &'a [u32],
    manner: Manner,
    actions: &mut [u8],
    masks: &mut [u32],
    request: Request,
)
    requires { replace_refusal
        (setting_now pre_types pre_categories post_types post_categories manner)
        (asked request)
        (line_all_mut_now codes types categories base actions masks)
        ≡ 0 }
    ensures { let s = setting_lent pre_types pre_categories post_types post_categories manner in
        let l = line_all_mut_lent codes types categories base actions masks in
        l.exit ≡ replaced_line (frame_of s) (asked request) l.entry }
{
    let place = request.place;
    codes[place] = request.code.0;
    types[place] = request.joining_type.0;
    categories[place] = request.category.0;
    let pre = KnownLetters {
        types: pre_types,
        categories: pre_categories,
    };
    let post = KnownLetters {
        types: post_types,
        categories: post_categories,
    };
    let before = pre.first();
    let behind = post.first();
    let features = manner.features;
    let frame = Frame {
        before,
        behind,
        features,
        mongolian: manner.mongolian,
    };
    renewing::refresh(codes, types, categories, base, frame, place, actions, masks);
}

// The refusal of a request: old actions and the new letter are tested here, the line and its contexts as for joining. Feature masks and
// script are not asked for, so the contract may name any.
fn refused(
    codes: &[u32],
    types: &[u8],
    categories: &[u8],
    pre_types: &[u8],
    pre_categories: &[u8],
    post_types: &[u8],
    post_categories: &[u8],
    base: &[u32],
    actions: &[u8],
    masks: &[u32],
    request: Request,
) -> Verdict
    ensures { let s = setting_lent pre_types pre_categories post_types post_categories (manner_of [] false) in
        let l = line_lent codes types categories base actions masks in
        said result ≡ first (replace_rows s (asked request) l.entry) }
{
    let line_even = lines::even_line(codes, types, categories, base, actions, masks);
    let letters = LentLetters { types, categories };
    let pre = LentLetters {
        types: pre_types,
        categories: pre_categories,
    };
    let post = LentLetters {
        types: post_types,
        categories: post_categories,
    };
    let line = lines::refused(line_even, letters, pre, post);
    let known = refusals::within(actions, Action::REPEATING.0)
        & ((request.joining_type.0 <= JoiningType::X.0) & (request.category.0 <= Category::ZS.0));
    let strange = refusals::unless(known, Refusal::OutOfRange);
    let outside = refusals::unless(request.place < types.len(), Refusal::Place);
    refusals::sooner(line, refusals::sooner(strange, outside))
}

// Replaces the letter at a place of a held line: writes its code, type and category, and the actions and masks that go by it. The contexts have
// their nearest letters first. Contexts, feature masks and script are those that the line was joined with: where they change, join it again.
pub fn replace_letter(
    codes: &mut [u32],
    types: &mut [u8],
    categories: &mut [u8],
    pre_types: &[u8],
    pre_categories: &[u8],
    post_types: &[u8],
    post_categories: &[u8],
    base: &[u32],
    manner: Manner,
    actions: &mut [u8],
    masks: &mut [u32],
    request: Request,
) -> Verdict
    ensures { let s = setting_lent pre_types pre_categories post_types post_categories manner in
        let l = line_all_mut_lent codes types categories base actions masks in
        Replacing s (asked request) l.entry result l.exit }
{
    refused(
        codes,
        types,
        categories,
        pre_types,
        pre_categories,
        post_types,
        post_categories,
        base,
        actions,
        masks,
        request,
    )?;
    replace_accepted(
        codes,
        types,
        categories,
        pre_types,
        pre_categories,
        post_types,
        post_categories,
        base,
        manner,
        actions,
        masks,
        request,
    );
    Ok(())
}
