// A line of `joinline`'s text form, read byte by byte: the state after each byte, and what the line says at its end.
//
// `start`, then `within` for each byte, then `said`. The state is a few numbers, so that a line of any length is read without being held.
#![tactic(auto)]

ghost use Rattle.std.specs.Prelude.{◌≡◌, List, ℕ, min};
ghost use Rattle.entries.specs.Form.{digit as digit_of, fields, line_of};
ghost use Rattle.entries.specs.Steps.{base as base_of, most as most_of, start as start_of, follows as follows_on, typed as typed_of, parted as parted_of, within as within_of, read_in, said_by};

// What a line says: the code and with how many digits it was typed, the type, the category.
#[derive(Clone, Copy, Debug, PartialEq, Eq)]
pub struct Entry {
    pub code: u32,
    pub width: u8,
    pub kind: u8,
    pub category: u8,
}

// What was read of a text so far.
#[derive(Clone, Copy, Debug, PartialEq, Eq)]
pub struct State {
    // of the line at hand: 0 code, 1 type, 2 category; 3: a line of the text is of other form
    pub field: u8,
    // of the field at hand
    pub digits: u8,
    pub value: u32,
    // of the fields before it
    pub code: u32,
    pub width: u8,
    pub kind: u8,
    // the lines before this one, as the text's reader counts them
    pub lines: usize,
}

// A line of the text is of other form.
pub const OTHER: State = State {
    field: 3,
    digits: 0,
    value: 0,
    code: 0,
    width: 0,
    kind: 0,
    lines: 0,
};

const BLANK: u8 = 32;

// The value of a digit, 16 for a byte that is none.
#[tactic(auto, unfolding(crate::specs::Form::digit))]
fn digit(b: u8) -> u32
    ensures { result ≡ digit_of b }
{
    match b {
        b'0'..=b'9' => u32::from(b - b'0'),
        b'A'..=b'F' => u32::from(b - b'A') + 10,
        _ => 16,
    }
}

fn base(field: u8) -> u32
    ensures { result ≡ base_of field }
{
    if field == 0 { 16 } else { 10 }
}

fn most(field: u8) -> u8
    ensures { result ≡ most_of field }
{
    if field == 0 { 6 } else { 3 }
}

// The state before a line.
pub fn start(lines: usize) -> State
    ensures { result ≡ start_of lines }
{
    State {
        field: 0,
        digits: 0,
        value: 0,
        code: 0,
        width: 0,
        kind: 0,
        lines,
    }
}

// A type or category, as a byte holds it.
fn byte(v: u32) -> u8
    ensures { result ≡ min v 255 }
{
    u8::try_from(v).unwrap_or(u8::MAX)
}

// Whether a digit may follow.
fn follows(s: State, d: u32) -> bool
    ensures { result ≡ follows_on s d }
{
    let zero = (s.field != 0) & ((s.digits == 1) & (s.value == 0));
    (s.field < 3)
        & ((d < base(s.field)) & ((s.digits < most(s.field)) & ((s.value < 1048576) & !zero)))
}

// A digit, or a byte that is none.
fn typed(s: State, d: u32) -> State
    ensures { result ≡ typed_of s d }
{
    if follows(s, d) {
        return State {
            digits: s.digits + 1,
            value: s.value * base(s.field) + d,
            ..s
        };
    }
    OTHER
}

// A blank.
fn parted(s: State) -> State
    ensures { result ≡ parted_of s }
{
    if (s.field == 0) & (4 <= s.digits) {
        return State {
            field: 1,
            digits: 0,
            value: 0,
            code: s.value,
            width: s.digits,
            kind: 0,
            lines: s.lines,
        };
    }
    if (s.field == 1) & (1 <= s.digits) {
        return State {
            field: 2,
            digits: 0,
            value: 0,
            kind: byte(s.value),
            ..s
        };
    }
    OTHER
}

// A byte that is no line end.
pub fn within(s: State, b: u8) -> State
    ensures { result ≡ within_of s b }
{
    if b == BLANK {
        return parted(s);
    }
    typed(s, digit(b))
}

// What the line says, if it ends here: an entry, or nothing where it is of other form. Where the state is what reading a line from its
// beginning left, this is what the definition says of that line.
pub fn said(s: State) -> Option<Entry>
    ensures state { result ≡ said_by s }
    ensures line { (n : ℕ) (l : List ℕ) → s ≡ read_in (start_of n) l → result ≡ line_of (fields l) }
{
    if (s.field == 2) & (1 <= s.digits) {
        return Some(Entry {
            code: s.code,
            width: s.width,
            kind: s.kind,
            category: byte(s.value),
        });
    }
    None
}
