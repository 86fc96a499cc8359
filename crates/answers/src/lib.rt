// What `joinline` prints of a text that was read: the text is joined as one line, and the answer is written to lent memory.
#![tactic(auto)]

ghost use Rattle.std.specs.Prelude.{◌≡◌, List, ℕ, ◌≤◌, min, length};
ghost use Rattle.texts.specs.Form.{Close, whole};
ghost use Rattle.printing.specs.Writing.{Wrote, filled};
ghost use Rattle.answers.specs.Output.{line_text, output, lines_text, answer_text, Even};

use lines::Manner;

// Lines of a text, at most.
const LIMIT: usize = 512;

// Joins a line of columns that are of one length, at most 512, and writes what comes of it.
fn line(
    codes: &[u32],
    widths: &[u8],
    types: &[u8],
    categories: &[u8],
    base: &[u32],
    actions: &mut [u8],
    masks: &mut [u32],
    out: &mut [u8],
) -> usize
    requires { Even (length types.now) codes.now categories.now base.now actions.old masks.old }
    ensures { Wrote out.new result ≡ filled out.old (line_text codes.now widths.now types.now categories.now) }
{
    let none = [0u8; 0];
    let verdict = lines::join_line(
        codes,
        types,
        categories,
        &none,
        &none,
        &none,
        &none,
        base,
        Manner {
            features: [0; 7],
            mongolian: false,
        },
        actions,
        masks,
    );
    match verdict {
        Ok(()) => printing::print(codes, widths, actions, out),
        Err(refusal) => printing::refused(refusal.number(), out),
    }
}

// Joins the first `n` records, if the columns hold so many.
fn lined(
    n: usize,
    codes: &[u32],
    widths: &[u8],
    types: &[u8],
    categories: &[u8],
    base: &[u32],
    actions: &mut [u8],
    masks: &mut [u32],
    out: &mut [u8],
) -> usize
    requires { (512 ≤ length base.now) × (512 ≤ length actions.old) × (512 ≤ length masks.old) }
    ensures { Wrote out.new result ≡ filled out.old (lines_text n codes.now widths.now types.now categories.now) }
{
    let most = LIMIT.min(
        codes
            .len()
            .min(widths.len())
            .min(types.len().min(categories.len())),
    );
    if n <= most {
        return line(
            &codes[..n],
            &widths[..n],
            &types[..n],
            &categories[..n],
            &base[..n],
            &mut actions[..n],
            &mut masks[..n],
            out,
        );
    }
    printing::refused(2, out)
}

// Lends the columns that joining wants, and nothing more.
fn lend(
    n: usize,
    codes: &[u32],
    widths: &[u8],
    types: &[u8],
    categories: &[u8],
    out: &mut [u8],
) -> usize
    ensures { Wrote out.new result ≡ filled out.old (lines_text n codes.now widths.now types.now categories.now) }
{
    let base = [0u32; 512];
    let mut actions = [0u8; 512];
    let mut masks = [0u32; 512];
    lined(
        n,
        codes,
        widths,
        types,
        categories,
        &base,
        &mut actions,
        &mut masks,
        out,
    )
}

// Writes what is printed of a text that came to this, read into these columns, as much of it as fits; answers how much that is. Where they are what
// reading a text into columns of at least 512 left, this is what the definition says of that text.
pub fn answer(
    told: Option<usize>,
    codes: &[u32],
    widths: &[u8],
    types: &[u8],
    categories: &[u8],
    out: &mut [u8],
) -> usize
    ensures columns { Wrote out.new result ≡ filled out.old (answer_text told codes.now widths.now types.now categories.now) }
    ensures text { let lent = Close told codes.now widths.now types.now categories.now in
        ((text c w t g : List ℕ) → 512 ≤ length c → 512 ≤ length w → 512 ≤ length t → 512 ≤ length g → lent ≡ whole text c w t g → Wrote out.new result ≡ filled out.old (output text)) }
{
    match told {
        None => printing::unreadable(out),
        Some(n) => lend(n, codes, widths, types, categories, out),
    }
}
