// Blocks: a block of marks is brought forward in a part, codes and classes at once. Linear: three turns, and no record moves one place at a time.
// `rotate_left` would need `memmove`, and of the C library the archives have only memcpy and memset.
#![tactic(auto)]

ghost use Rattle.std.specs.Prelude.{◌≡◌, ◌++◌, reverse, ◌≤◌, length, take, drop};
ghost use Rattle.blocks.specs.Marks.{marks, brought};

// A part of fewer records is moved by loops over both columns.
const FEW: usize = 32;

// Turns both columns round from `a` on, record by record. (No `for`: two places come towards each other.)
#[inline(always)]
fn turn_few(codes: &mut [u32], classes: &mut [u8], a: usize)
    requires codes_len { length codes.old ≡ length classes.old }
    requires a_in_bounds { a ≤ length codes.old }
    ensures { marks codes.new classes.new ≡ take a (marks codes.old classes.old) ++ reverse (drop a (marks codes.old classes.old)) }
{
    let mut lo = a;
    let mut hi = codes.len();
    while lo + 1 < hi {
        hi -= 1;
        let code = codes[lo];
        codes[lo] = codes[hi];
        codes[hi] = code;
        let class = classes[lo];
        classes[lo] = classes[hi];
        classes[hi] = class;
        lo += 1;
    }
}

// The marks from `n` on go to `a`, before those that stand there; for few records, which are what words have: the library's `reverse` takes twice as long
// for them.
#[inline(always)]
fn bring_few(codes: &mut [u32], classes: &mut [u8], a: usize, n: usize)
    requires codes_len { length codes.old ≡ length classes.old }
    requires a_le_n { a ≤ n }
    requires n_in_bounds { n ≤ length codes.old }
    ensures { marks codes.new classes.new ≡ brought a n (marks codes.old classes.old) }
{
    turn_few(&mut codes[..n], &mut classes[..n], a);
    turn_few(codes, classes, n);
    turn_few(codes, classes, a);
}

// Turns both columns round from `a` on.
fn turn(codes: &mut [u32], classes: &mut [u8], a: usize)
    requires codes_len { length codes.old ≡ length classes.old }
    requires a_in_bounds { a ≤ length codes.old }
    ensures { marks codes.new classes.new ≡ take a (marks codes.old classes.old) ++ reverse (drop a (marks codes.old classes.old)) }
{
    codes[a..].reverse();
    classes[a..].reverse();
}

// The same for many.
#[inline(never)]
fn bring_many(codes: &mut [u32], classes: &mut [u8], a: usize, n: usize)
    requires codes_len { length codes.old ≡ length classes.old }
    requires a_le_n { a ≤ n }
    requires n_in_bounds { n ≤ length codes.old }
    ensures { marks codes.new classes.new ≡ brought a n (marks codes.old classes.old) }
{
    turn(&mut codes[..n], &mut classes[..n], a);
    turn(codes, classes, n);
    turn(codes, classes, a);
}

// The marks from `n` on go to `a`, before those that stand there.
pub fn bring(codes: &mut [u32], classes: &mut [u8], a: usize, n: usize)
    requires codes_len { length codes.old ≡ length classes.old }
    requires a_le_n { a ≤ n }
    requires n_in_bounds { n ≤ length codes.old }
    ensures { marks codes.new classes.new ≡ brought a n (marks codes.old classes.old) }
{
    if codes.len() - a < FEW {
        bring_few(codes, classes, a, n);
    } else {
        bring_many(codes, classes, a, n);
    }
}
