// The sheet of a record that is lent whole, for C.
ghost use Rattle.std.specs.Prelude.{◌≡◌, ◌≤◌, length, take};
ghost use Rattle.rules.specs.Cycle.{most_bytes};
ghost use Rattle.rules.specs.Shown.{ledger_numbers, map_words};
ghost use Rattle.rules.specs.Record.{sheet_of};
ghost use Rattle.rules.specs.Text.{printed};
ghost use Rattle.sheet.specs.Overlaid.{most_sheet};
ghost use Rattle.prints.specs.Printed.{Prints};
ghost use Rattle.paperwhelk.specs.Exported.{sheet_answer, sheet_left};

use desk::{empty, feed};
use prints::{close, refuse};
use rules::limits::{LEDGER_NUMBERS, MAP_WORDS, MOST_BYTES};
use sheet::MOST_SHEET;

// What is printed of the record stands in the lines: the line of a refused field, or what is printed where the input ends.
fn print_whole(
    record: &[u8],
    room: &mut [u8],
    ledger: &mut [i64],
    map: &mut [u64],
    lines: &mut [u8],
) -> usize
    requires { (most_bytes ≤ length room.old) × (ledger_numbers ≤ length ledger.old) × (map_words ≤ length map.old) }
    ensures { Prints (printed (sheet_of «record».now)) lines.old result lines.new }
{
    let x = feed(empty(), record, room, ledger, map);
    if let Err(refusal) = x.outcome {
        return refuse(x.desk, refusal.number(), lines);
    }
    let left = record.len() - x.used;
    close(x.desk, left, room, ledger, map, lines)
}

// The first n bytes of the lines, a sheet, go to the front of out where they fit.
fn hand_over(lines: &[u8], n: usize, out: &mut [u8]) -> i32
    requires { (n ≤ length lines.now) × (n ≤ most_sheet) }
    ensures value { result ≡ sheet_answer (take n lines.now) out.old }
    ensures out_after { out.new ≡ sheet_left (take n lines.now) out.old }
{
    if out.len() < n {
        return -16;
    }
    out[..n].copy_from_slice(&lines[..n]);
    n as i32
}

// How many bytes the record's sheet has, which stands at the front of out, or minus 16 where it does not fit.
pub fn paperwhelk_sheet(record: &[u8], out: &mut [u8]) -> i32
    ensures value { result ≡ sheet_answer (printed (sheet_of «record».now)) out.old }
    ensures out_after { out.new ≡ sheet_left (printed (sheet_of «record».now)) out.old }
    ensures record_len_bound { length (printed (sheet_of «record».now)) ≤ most_sheet }
{
    let mut room = [0u8; MOST_BYTES];
    let mut ledger = [0i64; LEDGER_NUMBERS];
    let mut map = [0u64; MAP_WORDS];
    let mut lines = [0u8; MOST_SHEET];
    let n = print_whole(record, &mut room, &mut ledger, &mut map, &mut lines);
    hand_over(&lines, n, out)
}
