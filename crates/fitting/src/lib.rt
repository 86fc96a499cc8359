// Fitting: sums that stop at the ends of 32 bits, and how the repeating tiles of a run fill the room of a word.
#![tactic(auto)]

ghost use Rattle.std.specs.Prelude.{◌≡◌, ◌≤◌};
ghost use Rattle.refusals.specs.Columns.{line_limit};
ghost use Rattle.fitting.specs.Saturating.{clamped, sat_add_lem, sat_sub_lem};
ghost use Rattle.fitting.specs.Fit.{count, loose_fit, fit_of};

// The nearest number of 32 bits. By `saturating_add` and `saturating_sub` of the library a line of 8 records with tiles takes 3,332 instructions for 2,548, above its bar of 0.90 of the Rust.
fn clamp(s: i64) -> i32
    ensures { result ≡ clamped s }
{
    if s > 2147483647 {
        return 2147483647;
    }
    if s < -2147483648 {
        return -2147483648;
    }
    s as i32
}

pub fn sat_add(a: i32, b: i32) -> i32
    ensures { result ≡ sat_add_lem a b }
{
    clamp((a as i64) + (b as i64))
}

pub fn sat_sub(a: i32, b: i32) -> i32
    ensures { result ≡ sat_sub_lem a b }
{
    clamp((a as i64) - (b as i64))
}

// A number as a count: 0 for one below 0.
fn count_of(x: i32) -> usize
    ensures { result ≡ count x }
{
    usize::try_from(x).unwrap_or(0)
}

// How tiles fill a room: how often each is copied, by how much each copy overlaps, and where the offsets start.
#[derive(Clone, Copy, Debug, PartialEq, Eq)]
pub struct Fit {
    pub copies: usize,
    pub overlap: i32,
    pub start: i32,
}

// Tiles that are not squeezed: they start at half the room, towards zero.
fn loose(room: i32, copies: usize) -> Fit
    ensures { result ≡ loose_fit room copies }
{
    Fit {
        copies,
        overlap: 0,
        start: room / 2,
    }
}

// How the repeating tiles of a run, `w` wide together, fill the room.
pub fn fill(room: i32, w: i32, tiles: usize) -> Fit
    requires { tiles ≤ line_limit }
    ensures { result ≡ fit_of room w tiles }
{
    let r = count_of(room);
    let v = count_of(w);
    if room <= w {
        return loose(room, 0);
    }
    if v == 0 {
        if tiles == 0 {
            return loose(room, 0); // nothing to copy
        }
        return loose(room, 1);
    }
    let q = r / v;
    let left = r % v;
    if left == 0 {
        return loose(room, q - 1); // an exact fit: nothing is taken off the room
    }
    if tiles == 0 {
        return loose(room, q - 1);
    }
    Fit {
        copies: q,
        overlap: ((v - left) / (q * tiles)) as i32,
        start: 0,
    }
}
