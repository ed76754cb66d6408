// What the report prints of a record: its sheet, or the refusal with the number of its field.
#![tactic(auto)]

ghost use Rattle.std.specs.Prelude.{◌≡◌, leb, length};
ghost use Rattle.rules.specs.Words.{unless};
ghost use Rattle.sheet.specs.Overlaid.{overlaid, most_sheet};
ghost use Rattle.rules.specs.Text.{refusal_text};
ghost use Rattle.figures.specs.Figured.{Figurable};
ghost use Rattle.desk.specs.Feeding.{laid_of};
ghost use Rattle.prints.specs.Printed.{next_field, sheet_on, close_text};

use desk::{Desk, desk_refusal};
use figures::figures_on;
use reader::ended;
use sheet::{refusal_line, sheet_lines};

// "K is the number of accepted fields .. plus one".
fn next_field(fields: u64) -> u64
    ensures { result ≡ next_field fields }
{
    if fields < 18_446_744_073_709_551_615 {
        return fields + 1;
    }
    fields
}

// A refused field.
// Stays: the number and no `Refusal`, here and in the lines below it: the line of every number is promised (`refuse_text`).
pub fn refuse(desk: Desk, number: u32, out: &mut [u8]) -> usize
    ensures value { result ≡ unless 0 (leb most_sheet (length out.old)) (length (refusal_text number (next_field desk.fields))) }
    ensures out_after { out.new
        ≡ unless out.old (leb most_sheet (length out.old))
        (overlaid out.old 0 (refusal_text number (next_field desk.fields))) }
{
    refusal_line(number, next_field(desk.fields), out)
}

// A record that was read to its end, on a desk without 1 or 2.
fn print_run(desk: Desk, ledger: &[i64], out: &mut [u8]) -> usize
    requires { Figurable desk.reading ledger.now }
    ensures value { result ≡ unless 0 (leb most_sheet (length out.old)) (length (sheet_on desk.reading ledger.now)) }
    ensures out_after { out.new
        ≡ unless out.old (leb most_sheet (length out.old))
        (overlaid out.old 0 (sheet_on desk.reading ledger.now)) }
{
    sheet_lines(figures_on(desk.reading, ledger), out)
}

// The input ends, with so many bytes of an unfinished field left over.
// Stays: beside `tracing::trace_close`: two tests and two ways out, each with a promise about another text and other room.
pub fn close(
    desk: Desk,
    left: usize,
    room: &[u8],
    ledger: &[i64],
    map: &[u64],
    out: &mut [u8],
) -> usize
    ensures value { result ≡ unless 0 (leb most_sheet (length out.old))
        (length (close_text (laid_of desk room.now ledger.now map.now) left)) }
    ensures out_after { out.new
        ≡ unless out.old (leb most_sheet (length out.old))
        (overlaid out.old 0 (close_text (laid_of desk room.now ledger.now map.now) left)) }
{
    if let Err(refusal) = desk_refusal(desk, room, ledger, map) {
        return refuse(desk, refusal.number(), out);
    }
    match ended(desk.started, left) {
        Err(unfinished) => refuse(desk, unfinished.number(), out),
        Ok(()) => print_run(desk, ledger, out),
    }
}
