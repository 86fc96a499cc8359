// Joins a line that is read as text: prints the form of each letter, or why there is none.
//
// The text is read in pieces and its entries are held in columns of 512; what is longer is found out without being held. What is printed of a text is
// stated by crate `answers`; here stand only reading and printing.
#![tactic(auto)]

use entries::State;

// The file descriptors that a program starts with.
const STDIN_FILENO: i32 = 0;

const STDOUT_FILENO: i32 = 1;

// Reads the input to its end, a piece at a time. That it ends is not known, so that the pieces are counted.
fn read(codes: &mut [u32], widths: &mut [u8], types: &mut [u8], categories: &mut [u8]) -> State {
    let mut room = io::buffer();
    let mut s = texts::begin();
    for _ in 0..u64::MAX {
        let n = io::read_full(STDIN_FILENO, &mut room);
        if n == 0 {
            return s;
        }
        s = texts::read_on(s, &room[..n], codes, widths, types, categories);
    }
    s
}

// Prints the first `n` bytes of a text that has so many.
fn say(text: &[u8], n: usize) {
    if let Some(printed) = text.get(..n) {
        io::write_all(STDOUT_FILENO, printed);
    }
}

fn run(
    codes: &mut [u32],
    widths: &mut [u8],
    types: &mut [u8],
    categories: &mut [u8],
    out: &mut [u8],
) {
    let s = read(codes, widths, types, categories);
    let told = texts::close(s, codes, widths, types, categories);
    let n = answers::answer(told, codes, widths, types, categories, out);
    say(out, n);
}

// Lends the columns, and nothing more. Whatever is printed fits 8,208 bytes (crate `answers`, FitLaws).
fn main() {
    let mut codes = [0u32; 512];
    let mut widths = [0u8; 512];
    let mut types = [0u8; 512];
    let mut categories = [0u8; 512];
    let mut out = [0u8; 8208];
    run(
        &mut codes,
        &mut widths,
        &mut types,
        &mut categories,
        &mut out,
    );
}
