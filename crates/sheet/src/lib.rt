// The bytes that the report prints.
#![tactic(auto)]

ghost use Rattle.std.specs.Prelude.{◌≡◌, leb, length};
ghost use Rattle.rules.specs.Words.{unless};
ghost use Rattle.sheet.specs.Overlaid.{overlaid, most_sheet};
ghost use Rattle.rules.specs.Text.{sheet_text, refusal_text};

use rules::Figures;

pub mod lines;
mod sheets;
pub mod text;

// How long lines are lent: no sheet is longer.
pub const MOST_SHEET: usize = 512;

// The sheet of a record, from the start of out; how many bytes it has. Where out is too short, 0, and nothing is written.
pub fn sheet_lines(f: Figures, out: &mut [u8]) -> usize
    ensures value { result ≡ unless 0 (leb most_sheet (length out.old)) (length (sheet_text f)) }
    ensures out_after { out.new
        ≡ unless out.old (leb most_sheet (length out.old)) (overlaid out.old 0 (sheet_text f)) }
{
    if out.len() < MOST_SHEET {
        return 0;
    }
    let head = sheets::head_lines(out, 0, f);
    let body = sheets::count_lines(out, head, f);
    sheets::closing_lines(out, body, f.closing)
}

// The line of a refused field, likewise.
// Stays: the number and no `Refusal`: the line of every number is promised (`refusal_text`).
pub fn refusal_line(number: u32, field: u64, out: &mut [u8]) -> usize
    ensures value { result ≡ unless 0 (leb most_sheet (length out.old)) (length (refusal_text number field)) }
    ensures out_after { out.new
        ≡ unless out.old (leb most_sheet (length out.old)) (overlaid out.old 0 (refusal_text number field)) }
{
    if out.len() < MOST_SHEET {
        return 0;
    }
    let n = number as u64;
    let word = text::put_text(out, 0, b"refused", 32);
    let next = text::put_number(out, word, n, 32);
    lines::number_line(out, next, b"field", field)
}
