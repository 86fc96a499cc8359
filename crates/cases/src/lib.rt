// A case's columns, as a program uses them: compared at the cursor with what a call gave, or read as one number. They are
// taken by the crate `columns`; `same_stored` compares bytes by the kit's own function.
#![tactic(auto)]

ghost use Rattle.std.specs.Prelude.{◌≡◌, map, get_or};
ghost use Rattle.cases.specs.Comparing.{Compare, compared_at};
ghost use Rattle.cases.specs.Singles.{flag, narrowed};

use columns::{Element, Stored};

// The column at the cursor is what `got` has, in number and in the bits of each element.
pub fn same<T: Element>(body: &[u8], at: &mut usize, got: &[T]) -> bool
    ensures { Compare result at.new ≡ compared_at body.now T.WIDTH (map T.bits got.now) at.old }
{
    let s = columns::find(body, *at, T::WIDTH, body.len());
    *at = s.next;
    if s.count != got.len() {
        return false;
    }
    let mut k = s.from;
    for x in got {
        if T::read(body, k).bits() != x.bits() {
            return false;
        }
        k += usize::from(T::WIDTH);
    }
    true
}

// The same, at once where the elements are held as they lie there.
pub fn same_stored<T: Stored>(body: &[u8], at: &mut usize, got: &[T]) -> bool
    ensures { Compare result at.new ≡ compared_at body.now T.WIDTH (map T.bits got.now) at.old }
{
    if let Some(bytes) = T::held(got) {
        return check::same(columns::view_u8(body, at, body.len()), bytes);
    }
    same(body, at, got)
}

// A yes-or-no is one byte, 0 or 1.
pub fn is_flag(column: &[u8]) -> bool
    ensures { result ≡ flag column.now }
{
    (column.len() == 1) & (first(column, 0) < 2)
}

// The first element of a column, or `none` if there is none: a single number is a column of one element.
pub fn first<T: Copy>(column: &[T], none: T) -> T
    ensures { result ≡ get_or column.now 0 none }
{
    column.first().copied().unwrap_or(none)
}

// A place or a length as a case has it, in 32 bits: what is past them all becomes the last, which no line and no area has.
pub fn narrow(x: usize) -> u32
    ensures { result ≡ narrowed x }
{
    u32::try_from(x).unwrap_or(u32::MAX)
}

#[cfg(test)]
mod tests {
    use super::*;

    // A kind that says no more than an element has to: how wide it is, its bits, and how it is read.
    #[derive(Clone, Copy)]
    struct Word(u16);

    impl Element for Word {
        ghost WIDTH = { 2 };

        const WIDTH: u8 = 2;

        ghost bits = { λ x. x.0 };

        fn read(bytes: &[u8], at: usize) -> Word {
            Word(u16::read(bytes, at))
        }

        fn bits(self) -> u32 {
            u32::from(self.0)
        }
    }

    // Two elements of two bytes each, the highest first, and a byte behind them.
    const BODY: [u8; 10] = [0, 0, 0, 2, 2, 1, 2, 0, 3, 7];

    #[test]
    fn takes_a_kind_of_its_own(rt: HostRuntime) {
        let mut room = [Word(0); 3];
        let mut at = 0;
        let words = columns::take(&BODY, &mut at, &mut room);
        assert_eq!(rt; words.len(), 2);
        assert_eq!(rt; words[0].0, 258);
        assert_eq!(rt; words[1].0, 3);
        assert_eq!(rt; at, 9);
    }

    #[test]
    fn compares_a_kind_of_its_own(rt: HostRuntime) {
        for (second, want) in [(3, true), (4, false)] {
            let mut at = 0;
            assert_eq!(rt;
                same(&BODY, &mut at, &[Word(258), Word(second)]),
                want,
                "{second}"
            );
            assert_eq!(rt; at, 9);
        }
    }
}
