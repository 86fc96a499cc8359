// Replaying cases: read from standard input, and what differs is told on standard output.
//
// A program is one call of `run`, with its name, room for a case, and its own replay of one: that takes the body apart by the crates
// `columns` and `cases`, makes the call, and says by `tallies::judged` what the case comes to.
#![tactic(auto)]

ghost use Rattle.std.specs.Prelude.{◌≡◌, true, false, length, take};
ghost use Rattle.std.specs.Fn.{FnReturnsAt};
ghost use Rattle.replays.specs.Reading.{within, stopped, Turned};
ghost use Rattle.tallies.specs.Counting.{counted, goes_on_lem};

use tallies::{Outcome, Tally};

// The file descriptors that a program starts with.
const STDIN_FILENO: i32 = 0;

const STDOUT_FILENO: i32 = 1;

// A case: the bytes of its body, or the end of the input, or bytes that are no case.
// (No Option or Result: that the input ends is one of three answers, and no failure.)
#[derive(Clone, Copy, Debug, PartialEq, Eq)]
pub enum Case {
    Body(usize),
    End,
    Unreadable,
}

// The length of the next body, as the input says it.
fn announced() -> Case {
    let mut four = [0u8; 4];
    let n = io::read_full(STDIN_FILENO, &mut four);
    if n == 0 {
        return Case::End;
    }
    if n < 4 {
        return Case::Unreadable;
    }
    Case::Body(u32::from_be_bytes(four) as usize)
}

// Reads a body of `n` bytes to the start of the room.
fn fill(body: &mut [u8], n: usize) -> Case
    ensures { within result (length body.old) ≡ true }
{
    if body.len() < n {
        return Case::Unreadable;
    }
    if io::read_full(STDIN_FILENO, &mut body[..n]) == n {
        return Case::Body(n);
    }
    Case::Unreadable
}

// Reads the next case's body to the start of the room. One that is longer than the room counts as unreadable.
pub fn next(body: &mut [u8]) -> Case
    ensures { within result (length body.old) ≡ true }
{
    match announced() {
        Case::Body(n) => fill(body, n),
        Case::End => Case::End,
        Case::Unreadable => Case::Unreadable,
    }
}

// The first `n` bytes of the room, or all if there are fewer.
pub fn front<'a>(room: &'a [u8], n: usize) -> &'a [u8]
    ensures { result.now ≡ take n room.now }
{
    &room[..n.min(room.len())]
}

// What it comes to that there is no body.
pub fn stopped(c: Case) -> Outcome
    ensures { result ≡ stopped c }
{
    match c {
        Case::Body(_) => Outcome::Unreadable,
        Case::End => Outcome::End,
        Case::Unreadable => Outcome::Unreadable,
    }
}

// Writes a number, and what stands before and behind it.
fn say(before: &[u8], n: u64, behind: &[u8]) {
    io::write_all(STDOUT_FILENO, before);
    io::print_decimal(STDOUT_FILENO, n);
    io::write_all(STDOUT_FILENO, behind);
}

// Each text is made in a function that does nothing but say it: a byte string is written out in every fact of its function.
fn say_differs(k: u64) {
    say(b"case ", k, b" differs\n");
}

fn say_unreadable(k: u64) {
    say(b": unreadable at case ", k, b"\n");
}

fn say_cases(n: u64) {
    say(b": ", n, b" cases");
}

fn say_differ(n: u64) {
    say(b", ", n, b" differ\n");
}

// Counts a case, and says that it differs unless ten were told.
pub fn tell(t: Tally, what: Outcome) -> Tally
    ensures { result ≡ counted t what }
{
    if what == Outcome::Differs && t.differ < 10 {
        say_differs(t.cases);
    }
    tallies::counted(t, what)
}

// The last line: how many cases there were and how many differ, or which one is unreadable.
pub fn finish(name: &[u8], t: Tally, what: Outcome) {
    io::write_all(STDOUT_FILENO, name);
    if what == Outcome::Unreadable {
        say_unreadable(t.cases);
        return;
    }
    say_cases(t.cases);
    say_differ(t.differ);
}

// Reads a case to the room, and replays it.
fn turn<F: Fn(&[u8]) -> Outcome>(room: &mut [u8], replay: &F) -> Outcome
    requires { F.IsAlwaysCallable replay.now }
    ensures { Turned (FnReturnsAt F.Fn replay.now) result }
{
    match next(room) {
        Case::Body(n) => replay(front(room, n)),
        c => stopped(c),
    }
}

// A whole program: replays case after case, tells what they come to, and says where it ended: at the end of the input or at what is
// unreadable, or where no more can be counted. All cases are lent one room, since filling it anew would take longer than most calls.
pub fn run<F: Fn(&[u8]) -> Outcome>(name: &[u8], room: &mut [u8], replay: F) -> (Tally, Outcome)
    requires { F.IsAlwaysCallable replay }
    ensures { goes_on_lem result.0 result.1 ≡ false }
{
    let mut tally = tallies::begin();
    let mut what = turn(room, &replay);
    while tallies::goes_on(tally, what) {
        tally = tell(tally, what);
        what = turn(room, &replay);
    }
    finish(name, tally, what);
    (tally, what)
}
