// Lines: the public call that joins a line.
#![tactic(auto)]

ghost use Rattle.std.specs.Prelude.{◌≡◌, cond, length};
ghost use Rattle.laws.specs.Rows.{first};
ghost use Rattle.refusals.specs.Numbers.{said};
ghost use Rattle.selectors.specs.Selectors.{settled};
ghost use Rattle.lines.specs.Held.{setting_now, line_mut_now, setting_lent, line_lent, line_mut_lent};
ghost use Rattle.lines.specs.Lent.{letters_lent};
ghost use Rattle.lines.specs.Joined.{even_letters, even_line_lem, known_letters_lem, refusal_rows, refusal, joined_line, Joining};

use joining::KnownLetters;
use letters::{Category, JoiningType};
use refusals::{Refusal, Verdict};

// Letters of a context, at most.
const CONTEXT_LIMIT: usize = 64;

// How a line is joined, apart from its letters: the seven feature masks, and whether it is Mongolian.
#[derive(Clone, Copy, Debug, PartialEq, Eq)]
pub struct Manner {
    pub features: [u32; 7],
    pub mongolian: bool,
}

// What a setting comes to: the types of the letters next to a line on both sides, the seven feature masks, whether it is Mongolian.
#[derive(Clone, Copy, Debug, PartialEq, Eq)]
pub struct Frame {
    pub before: JoiningType,
    pub behind: JoiningType,
    pub features: [u32; 7],
    pub mongolian: bool,
}

// Letters of a line or of a context, by their types and categories as they are lent: nothing of them was tested yet.
#[derive(Clone, Copy)]
pub struct LentLetters<'a> {
    pub types: &'a [u8],
    pub categories: &'a [u8],
}

impl LentLetters<'_> {
    // As many types as categories.
    fn even(self) -> bool
        ensures { result ≡ even_letters (letters_lent self.entry) }
    {
        self.types.len() == self.categories.len()
    }

    // Each type is one of the eight, each category one of the thirty.
    fn known(self) -> bool
        ensures { result ≡ known_letters_lem (letters_lent self.entry) }
    {
        refusals::within(self.types, JoiningType::X.0)
            & refusals::within(self.categories, Category::ZS.0)
    }
}

// The columns of a line are of one length.
pub fn even_line(
    codes: &[u32],
    types: &[u8],
    categories: &[u8],
    base: &[u32],
    actions: &[u8],
    masks: &[u32],
) -> bool
    ensures { let l = line_lent codes types categories base actions masks in
        result ≡ even_line_lem l.entry }
{
    let n = types.len();
    (n == categories.len())
        & ((n == codes.len()) & ((n == base.len()) & ((n == actions.len()) & (n == masks.len()))))
}

// The refusal of a line, of which it is known whether its columns are even, and its contexts. Always inlined, so that letters are not handed over in
// memory.
#[inline(always)]
pub fn refused(
    line_even: bool,
    letters: LentLetters<'_>,
    pre: LentLetters<'_>,
    post: LentLetters<'_>,
) -> Verdict
    ensures { said result ≡ first (refusal_rows line_even (letters_lent letters.entry) (letters_lent pre.entry) (letters_lent post.entry)) }
{
    let even = line_even & (pre.even() & post.even());
    if !even {
        return Err(Refusal::Uneven);
    }
    let short = (letters.types.len() <= refusals::LINE_LIMIT)
        & ((pre.types.len() <= CONTEXT_LIMIT) & (post.types.len() <= CONTEXT_LIMIT));
    if !short {
        return Err(Refusal::TooLong);
    }
    let known = letters.known() & (pre.known() & post.known());
    if !known {
        return Err(Refusal::OutOfRange);
    }
    Ok(())
}

// In a Mongolian line selectors take the action of the record before them.
fn settle(mongolian: bool, codes: &[u32], actions: &mut [u8])
    requires { length codes.now ≡ length actions.old }
    ensures { actions.new ≡ cond mongolian (settled codes.now actions.old) actions.old }
{
    if mongolian {
        selectors::mongolian_variation_selectors(codes, actions);
    }
}

// Joins a line that is not refused.
fn join_accepted(
    codes: &[u32],
    types: &[u8],
    categories: &[u8],
    pre_types: &[u8],
    pre_categories: &[u8],
    post_types: &[u8],
    post_categories: &[u8],
    base: &[u32],
    manner: Manner,
    actions: &mut [u8],
    masks: &mut [u32],
)
    requires { refusal
        (setting_now pre_types pre_categories post_types post_categories manner)
        (line_mut_now codes types categories base actions masks)
        ≡ 0 }
    ensures { let s = setting_lent pre_types pre_categories post_types post_categories manner in
        let l = line_mut_lent codes types categories base actions masks in
        l.exit ≡ joined_line s l.entry }
{
    let line = KnownLetters { types, categories };
    let pre = KnownLetters {
        types: pre_types,
        categories: pre_categories,
    };
    let post = KnownLetters {
        types: post_types,
        categories: post_categories,
    };
    joining::arabic_joining(line, pre, post, actions);
    settle(manner.mongolian, codes, actions);
    let features = manner.features;
    masks::setup_masks(features, base, actions, masks);
}

// Joins a line: writes the action and the mask of each record. The contexts have their nearest letters first.
pub fn join_line(
    codes: &[u32],
    types: &[u8],
    categories: &[u8],
    pre_types: &[u8],
    pre_categories: &[u8],
    post_types: &[u8],
    post_categories: &[u8],
    base: &[u32],
    manner: Manner,
    actions: &mut [u8],
    masks: &mut [u32],
) -> Verdict
    ensures { let s = setting_lent pre_types pre_categories post_types post_categories manner in
        let l = line_mut_lent codes types categories base actions masks in
        Joining s l.entry result l.exit }
{
    let line_even = even_line(codes, types, categories, base, actions, masks);
    let letters = LentLetters { types, categories };
    let pre = LentLetters {
        types: pre_types,
        categories: pre_categories,
    };
    let post = LentLetters {
        types: post_types,
        categories: post_categories,
    };
    refused(line_even, letters, pre, post)?;
    join_accepted(
        codes,
        types,
        categories,
        pre_types,
        pre_categories,
        post_types,
        post_categories,
        base,
        manner,
        actions,
        masks,
    );
    Ok(())
}
