ghost use Rattle.joining.specs.Joinable.{Joinable};

// Letters of a line or of a context, by their types and categories as they are lent, once it is known that they are types and categories. Those of a
// context begin with its nearest.
#[derive(Clone, Copy)]
pub struct KnownLetters<'a> {
    pub types: &'a [u8],
    pub categories: &'a [u8],
    ghost joinable: { Joinable types.now categories.now },
}
