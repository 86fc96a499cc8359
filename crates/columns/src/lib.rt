// A case's body, taken apart: its columns, one after the other, by a cursor.
//
// A column that is not of the form, cut short or too long is taken as an empty one, and the cursor is then past every body: from
// there on every column is empty, so that a caller looks at the cursor once, at the end. Bytes are viewed as they lie there, and copied so by
// `take_stored`; elements of any kind are put together by one loop, and one law over the width stands behind it. A column of signed numbers
// has their bits.
#![tactic(auto)]

ghost use Rattle.std.specs.Prelude.{◌≡◌, ℕ, true, false, map, ◌+◌, ◌-◌, ◌*◌, ◌≤◌, length, get_or, take, IfSome};
ghost use Rattle.std.specs.Int.{w32};
ghost use Rattle.std.proofs.Common.{of_z};
ghost use Rattle.columns.specs.Form.{number_at, elements, span_at, Took, column_at};

// Where the elements of a column lie, how many they are, and where the next column starts.
#[derive(Clone, Copy)]
pub struct Span {
    pub from: usize,
    pub count: usize,
    pub next: usize,
}

// No column: empty, and the next is past every body. (No Option: `span_at` loses the cursor, so that a caller looks at it once.)
const NONE: Span = Span {
    from: 0,
    count: 0,
    next: usize::MAX,
};

// The bytes from a place on; none for a place past the end.
fn left(bytes: &[u8], at: usize) -> usize
    ensures { result ≡ length bytes.now - at }
{
    bytes.len().saturating_sub(at)
}

// The byte `i` places behind a place. Past the end there are zeros.
fn byte(bytes: &[u8], at: usize, i: usize) -> u8
    ensures { result ≡ get_or bytes.now (at + i) 0 }
{
    if i < left(bytes, at) {
        return bytes[at + i];
    }
    0
}

// A kind of element that a column may have: how wide one is, and the number that its bits are.
pub trait Element: Copy {
    ghost WIDTH: { ℕ };

    const WIDTH: u8;

    ghost bits: { Self → ℕ };

    // The element in the bytes from a place on, the highest first.
    fn read(bytes: &[u8], at: usize) -> Self
        ensures { bits result ≡ number_at bytes.now WIDTH at };

    fn bits(self) -> u32
        ensures { result ≡ bits self };
}

// A kind that may also say that its elements are held as they lie in a body. Bytes are: they are copied and compared at once, since one
// after the other took twice as long where a case has a large area. A kind that says nothing of it counts as one that is not.
pub trait Stored: Element {
    // Whether elements of this kind are held so, and were copied to the start of `out`.
    fn copied(bytes: &[u8], at: usize, count: usize, out: &mut [Self]) -> bool
        requires { (at + count * Self.WIDTH ≤ length bytes.now) × (count ≤ length out.old) }
        ensures all { result ≡ true → (length out.new ≡ length out.old) × (map Self.bits (take count out.new) ≡ elements bytes.now Self.WIDTH at count) }
        ensures none { result ≡ false → out.new ≡ out.old }
    {
        // Nothing is copied.
        false
    }

    // The elements as they lie in a body, if they are held so.
    fn held(elements: &[Self]) -> Option<&[u8]>
        ensures { IfSome result (λ held. (Self.WIDTH ≡ 1) × (held.now ≡ map Self.bits elements.now)) }
    {
        None
    }
}

impl Element for u8 {
    ghost WIDTH = { 1 };

    const WIDTH: u8 = 1;

    ghost bits = { λ x. x };

    fn read(bytes: &[u8], at: usize) -> u8 {
        byte(bytes, at, 0)
    }

    fn bits(self) -> u32 {
        u32::from(self)
    }
}

impl Stored for u8 {
    fn copied(bytes: &[u8], at: usize, count: usize, out: &mut [u8]) -> bool {
        out[..count].copy_from_slice(&bytes[at..at + count]);
        true
    }

    fn held(elements: &[u8]) -> Option<&[u8]> {
        Some(elements)
    }
}

impl Element for u16 {
    ghost WIDTH = { 2 };

    const WIDTH: u8 = 2;

    ghost bits = { λ x. x };

    fn read(bytes: &[u8], at: usize) -> u16 {
        u16::from_be_bytes([byte(bytes, at, 0), byte(bytes, at, 1)])
    }

    fn bits(self) -> u32 {
        u32::from(self)
    }
}

impl Stored for u16 {}

impl Element for u32 {
    ghost WIDTH = { 4 };

    const WIDTH: u8 = 4;

    ghost bits = { λ x. x };

    fn read(bytes: &[u8], at: usize) -> u32 {
        u32::from_be_bytes([
            byte(bytes, at, 0),
            byte(bytes, at, 1),
            byte(bytes, at, 2),
            byte(bytes, at, 3),
        ])
    }

    fn bits(self) -> u32 {
        self
    }
}

impl Stored for u32 {}

impl Element for i32 {
    ghost WIDTH = { 4 };

    const WIDTH: u8 = 4;

    ghost bits = { of_z w32 };

    fn read(bytes: &[u8], at: usize) -> i32 {
        u32::read(bytes, at).cast_signed()
    }

    fn bits(self) -> u32 {
        self.cast_unsigned()
    }
}

impl Stored for i32 {}

// The column at the cursor, if it has this width, at most so many elements, and is whole.
pub fn find(body: &[u8], at: usize, width: u8, most: usize) -> Span
    ensures { result ≡ span_at body.now width most at }
{
    let room = left(body, at);
    if room < 5 {
        return NONE;
    }
    let count = u32::read(body, at) as usize;
    let bytes = count * (width as usize);
    if (body[at + 4] == width) & ((bytes <= room - 5) & (count <= most)) {
        let from = at + 5;
        return Span {
            from: from,
            count: count,
            next: from + bytes,
        };
    }
    NONE
}

// The byte column at the cursor as it lies in the body. One longer than `most` is none.
pub fn view_u8<'a>(body: &'a [u8], at: &mut usize, most: usize) -> &'a [u8]
    ensures { Took result.now at.new ≡ column_at body.now 1 most at.old }
{
    let s = find(body, *at, 1, most);
    let from = s.from;
    let to = from + s.count;
    *at = s.next;
    &body[from..to]
}

// The elements of a column, one after the other, to the start of `out`; answers that part of `out`.
fn gather<'a, T: Element>(body: &[u8], s: Span, out: &'a mut [T]) -> &'a mut [T]
    requires inside { s.from + s.count * T.WIDTH ≤ length body.now }
    requires few { s.count ≤ length out.old }
    ensures { map T.bits result.now ≡ elements body.now T.WIDTH s.from s.count }
{
    let count = s.count;
    let mut k = s.from;
    for i in 0..count {
        out[i] = T::read(body, k);
        k += usize::from(T::WIDTH);
    }
    &mut out[..count]
}

// The column at the cursor goes to the start of `out`; answers that part of `out`. One longer than `out` is none.
pub fn take<'a, T: Element>(body: &[u8], at: &mut usize, out: &'a mut [T]) -> &'a mut [T]
    ensures { Took (map T.bits result.now) at.new ≡ column_at body.now T.WIDTH (length out.old) at.old }
{
    let most = out.len();
    let column = find(body, *at, T::WIDTH, most);
    *at = column.next;
    gather(body, column, out)
}

// The same, at once where the elements are held as they lie there.
pub fn take_stored<'a, T: Stored>(body: &[u8], at: &mut usize, out: &'a mut [T]) -> &'a mut [T]
    ensures { Took (map T.bits result.now) at.new ≡ column_at body.now T.WIDTH (length out.old) at.old }
{
    let s = find(body, *at, T::WIDTH, out.len());
    *at = s.next;
    if T::copied(body, s.from, s.count, out) {
        return &mut out[..s.count];
    }
    gather(body, s, out)
}
