// Neighbours: the nearest letters on both sides of a place that are not transparent, found by walking outward from it.
#![tactic(auto)]

ghost use Rattle.std.specs.Prelude.{◌≤◌, length};
ghost use Rattle.joining.specs.Known.{known_types};
ghost use Rattle.neighbours.specs.Beside.{StandsBefore, StandsFrom};

use joining::KnownLetters;
use letters::JoiningType;

// A letter of the line and where it stands. Past the line there is none, and the letter next to the line stands for it: who asks wants a letter
// in each case, so that an `Option` would be taken apart at every use.
#[derive(Clone, Copy, Debug, PartialEq, Eq)]
pub struct Neighbour {
    pub place: usize,
    pub letter: JoiningType,
}

// The nearest letter before place `k`; `before` stands before the line.
pub fn letter_before(letters: KnownLetters<'_>, k: usize, before: JoiningType) -> Neighbour
    requires { k ≤ length letters.types.now }
    ensures { StandsBefore (known_types letters.entry) k before.0 result }
{
    for i in (0..k).rev() {
        let prev_type = letters.type_at(i);
        if prev_type != JoiningType::T {
            return Neighbour {
                place: i,
                letter: prev_type,
            };
        }
    }
    let end = letters.types.len();
    Neighbour {
        place: end,
        letter: before,
    }
}

// The nearest letter from place `k` on; `behind` stands behind the line.
pub fn letter_from(letters: KnownLetters<'_>, k: usize, behind: JoiningType) -> Neighbour
    requires { k ≤ length letters.types.now }
    ensures { StandsFrom (known_types letters.entry) k behind.0 result }
{
    for i in k..letters.types.len() {
        let next_type = letters.type_at(i);
        if next_type != JoiningType::T {
            return Neighbour {
                place: i,
                letter: next_type,
            };
        }
    }
    Neighbour {
        place: letters.types.len(),
        letter: behind,
    }
}
