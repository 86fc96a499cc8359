// Layouts: what kinds of lookup there are, and what writing one answers. The definitions of a lookup's bytes are in specs/.
#![tactic(auto)]

ghost use Rattle.std.specs.Prelude.{◌≡◌};
ghost use Rattle.layouts.specs.Written.{length_said};

use refusals::Refusal;

// Whether a lookup is single, or ligature with its component number.
#[derive(Clone, Copy, Debug, PartialEq, Eq)]
pub enum Kind {
    Single,
    Ligature(u8),
}

// What a writer answers: how many bytes it wrote.
pub type Written = Result<usize, Refusal>;

// The length of the lookup: a refused call has written none.
pub fn length(written: Written) -> usize
    ensures { result ≡ length_said written }
{
    written.unwrap_or(0)
}
