use joining::KnownLetters;
use lines::Frame;

// A held line in its frame: what renewing only reads of it. Its actions and masks are lent apart: a struct of columns to write could be lent another
// column, and each contract would have to say that it was not.
#[derive(Clone, Copy)]
pub struct Held<'a> {
    pub codes: &'a [u32],
    pub letters: KnownLetters<'a>,
    pub base: &'a [u32],
    pub frame: Frame,
}
