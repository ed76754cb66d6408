// A whole record, turn after turn, with its lines printed as they come.
ghost use Rattle.std.specs.Prelude.{true, false, ◌≡◌, ◌+◌, ◌≤◌, min, leb, length};
ghost use Rattle.rules.specs.Words.{unless};
ghost use Rattle.sheet.specs.Overlaid.{overlaid};
ghost use Rattle.listing.specs.Lines.{most_line, most_count};
ghost use Rattle.desk.specs.Feeding.{laid_of, empty_desk, longest, most_fields};
ghost use Rattle.walk.specs.Walks.{most_lines, roomy, last_of, finished_by, finished_lines, Recorded, short_line, Unlisted};

use crate::{Walk, begin, last_line, walk_on};
use edges::{Fault, send};
use intake::LONGEST;
use intake::turns::{goes_on, has_failed};
use listing::refused::refused_field;
use listing::{MOST_LINE, PER_BYTE};

// How long the lines have to be for a buffer of 4,864 bytes (docs/STATE.md).
pub const MOST_LINES: usize = PER_BYTE * 4864 + 2 * MOST_LINE;

// What became of the list of a record: how many bytes of it went out, how many bytes of the lines are to go out behind them, none where reading failed or the
// system took no more, and how many of the record were not read.
#[derive(Clone, Copy, Debug, PartialEq, Eq)]
pub struct Listed {
    pub sent: u64,
    pub printed: Result<usize, Fault>,
    pub left: u64,
}

// So many bytes more went out: how many in all, as far as 64 bits go.
fn more_sent(sent: u64, went: usize) -> u64
    ensures { result ≡ min (sent + went) most_count }
{
    sent.saturating_add(went as u64)
}

// The last line stands behind those of the last turn.
fn finish(walk: Walk, sent: u64, buffer: &[u8], lines: &mut [u8]) -> Listed
    requires most_line_in_bounds { (walk.printed + most_line ≤ length lines.old) × (walk.turn.used + walk.turn.held ≤ length buffer.now) }
    requires fields_le_most_fields { walk.turn.desk.fields ≤ most_fields }
    ensures value { result ≡ finished_by walk sent (last_of walk.turn walk.spot buffer.now) }
    ensures lines_after { lines.new ≡ finished_lines walk (last_of walk.turn walk.spot buffer.now) lines.old }
{
    let printed = if has_failed(walk.turn.turned) {
        Err(Fault::Input)
    } else {
        Ok(last_line(walk, buffer, lines))
    };
    Listed {
        sent,
        printed,
        left: walk.turn.left,
    }
}

// Turn after turn: the lines of a turn go out before the next one is made, those of the last one stand in the lines.
fn list_through(
    rt: HostRuntime,
    most: u64,
    buffer: &mut [u8],
    room: &mut [u8],
    ledger: &mut [i64],
    map: &mut [u64],
    lines: &mut [u8],
) -> Listed
    requires { (longest ≤ length buffer.old) × (most_lines (length buffer.old) ≤ length lines.old) }
    ensures { Recorded (laid_of empty_desk room.old ledger.old map.old) most
        result buffer.new room.new ledger.new map.new lines.new }
{
    let mut walk = begin(most);
    let mut sent: u64 = 0;
    // Stays: no index is counted; a turn leads on by what was read.
    while walk.turn.left > 0 {
        let went = send(rt, lines, walk.printed);
        if went < walk.printed {
            return Listed {
                sent,
                printed: Err(Fault::Output),
                left: walk.turn.left,
            };
        }
        sent = more_sent(sent, went);
        walk = walk_on(rt, walk, buffer, room, ledger, map, lines);
        if !goes_on(walk.turn.turned) {
            return finish(walk, sent, buffer, lines);
        }
    }
    finish(walk, sent, buffer, lines)
}

// Whether a buffer of so many bytes holds the longest field, and so many bytes of lines those of a turn.
fn is_roomy(size: usize, lines: usize) -> bool
    ensures { result ≡ roomy size lines }
{
    size >= LONGEST && lines >= 2 * MOST_LINE && size <= (lines - 2 * MOST_LINE) / PER_BYTE
}

// The line of a buffer or of lines that are too short, where it fits.
fn short_line(lines: &mut [u8]) -> usize
    ensures value { result ≡ unless 0 (leb most_line (length lines.old)) (length short_line) }
    ensures lines_after { lines.new
        ≡ unless lines.old (leb most_line (length lines.old)) (overlaid lines.old 0 short_line) }
{
    if lines.len() < MOST_LINE {
        return 0;
    }
    refused_field(lines, 0, 1, 0, 1, &[])
}

// The field list of a record of at most so many bytes goes out, but for what is then to go out of the lines. A buffer that is too short for a field, and lines
// that are too short for a turn, are refused 1 before all else.
// Stays: beside `intake::take_record`, for the reason that `traced::trace_record` gives.
pub fn list_record(
    rt: HostRuntime,
    most: u64,
    buffer: &mut [u8],
    room: &mut [u8],
    ledger: &mut [i64],
    map: &mut [u64],
    lines: &mut [u8],
) -> Listed
    ensures recorded { roomy (length buffer.old) (length lines.old) ≡ true
        → Recorded (laid_of empty_desk room.old ledger.old map.old) most
        result buffer.new room.new ledger.new map.new lines.new }
    ensures unlisted { roomy (length buffer.old) (length lines.old) ≡ false
        → Unlisted (laid_of empty_desk room.old ledger.old map.old) most lines.old
        result room.new ledger.new map.new lines.new }
    ensures buffer_unchanged { roomy (length buffer.old) (length lines.old) ≡ false → buffer.new ≡ buffer.old }
{
    if !is_roomy(buffer.len(), lines.len()) {
        return Listed {
            sent: 0,
            printed: Ok(short_line(lines)),
            left: most,
        };
    }
    list_through(rt, most, buffer, room, ledger, map, lines)
}
