// A record from standard input, through the field buffer, to what is printed of it.
#![tactic(auto)]

mod parts;
pub mod programs;
pub mod turns;

ghost use Rattle.std.specs.Prelude.{◌≡◌, ◌≤◌, ◌<◌, length};
ghost use Rattle.desk.specs.Feeding.{laid_of, empty_desk, longest};
ghost use Rattle.prints.specs.Printed.{Prints};
ghost use Rattle.intake.specs.Turns.{turn_text, intake_of, lines_of, Recorded, Unread};

use desk::{Desk, empty};
use edges::{Fault, fill};
use parts::{at_most, read_through};
use prints::{close, refuse};
use rules::limits::MOST_BYTES;
use turns::has_failed;

// The buffer holds the longest field: tag, length and the longest cycle.
pub const LONGEST: usize = 3 + MOST_BYTES;

// What became of a turn: bytes were taken, the input ended, reading failed, or a field was refused.
// Stays: four things can become of a turn, and two of them are no fault, so that a Result of an Option would hide which is which.
#[derive(Clone, Copy, Debug, PartialEq, Eq)]
pub enum Turned {
    On,
    Ended,
    Failed,
    // Stays: the number: `turned_by` (intake/specs/Turns.antt) makes it of what the desk says.
    Refused(u32),
}

// The desk, how many bytes at the front of the buffer it took last, how many behind them it left, and how many bytes of the record are still to be read.
#[derive(Clone, Copy)]
pub struct Turn {
    pub turned: Turned,
    pub desk: Desk,
    pub used: usize,
    pub held: usize,
    pub left: u64,
}

// How many bytes of the lines to print, none where reading failed, and how many of the record were not read.
#[derive(Clone, Copy, Debug, PartialEq, Eq)]
pub struct Intake {
    pub printed: Result<usize, Fault>,
    pub left: u64,
}

// What is printed of a record that was read, to its end or to a refused field.
fn print_record(t: Turn, room: &[u8], ledger: &[i64], map: &[u64], lines: &mut [u8]) -> usize
    ensures { Prints (turn_text t (laid_of t.desk room.now ledger.now map.now)) lines.old result lines.new }
{
    match t.turned {
        Turned::Refused(number) => refuse(t.desk, number, lines),
        _ => close(t.desk, t.held, room, ledger, map, lines),
    }
}

// What is answered of the last turn: where reading failed, nothing is printed.
fn answer_to(t: Turn, room: &[u8], ledger: &[i64], map: &[u64], lines: &mut [u8]) -> Intake
    ensures value { result ≡ intake_of t (laid_of t.desk room.now ledger.now map.now) lines.old }
    ensures lines_after { lines.new
        ≡ lines_of t (laid_of t.desk room.now ledger.now map.now) lines.old }
{
    let printed = if has_failed(t.turned) {
        Err(Fault::Input)
    } else {
        Ok(print_record(t, room, ledger, map, lines))
    };
    Intake {
        printed,
        left: t.left,
    }
}

// A record of at most so many bytes: what is printed of it stands in the lines.
fn read_record(
    rt: HostRuntime,
    most: u64,
    buffer: &mut [u8],
    room: &mut [u8],
    ledger: &mut [i64],
    map: &mut [u64],
    lines: &mut [u8],
) -> Intake
    requires { longest ≤ length buffer.old }
    ensures { Recorded (laid_of empty_desk room.old ledger.old map.old) most lines.old
        result room.new ledger.new map.new lines.new }
{
    let t = read_through(rt, most, buffer, room, ledger, map);
    answer_to(t, room, ledger, map, lines)
}

// The same, of any buffer: one that is too short for a field is refused 1 before all else.
// Stays: the five slices one by one: `desk::feed_on` takes them so, and `ProgramPrints` (demands/specs/Programs.antt) speaks of each by itself.
pub fn take_record(
    rt: HostRuntime,
    most: u64,
    buffer: &mut [u8],
    room: &mut [u8],
    ledger: &mut [i64],
    map: &mut [u64],
    lines: &mut [u8],
) -> Intake
    ensures recorded { longest ≤ length buffer.old
        → Recorded (laid_of empty_desk room.old ledger.old map.old) most lines.old
        result room.new ledger.new map.new lines.new }
    ensures unread { length buffer.old < longest
        → Unread (laid_of empty_desk room.old ledger.old map.old) most lines.old
        result room.new ledger.new map.new lines.new }
    ensures buffer_unchanged { length buffer.old < longest → buffer.new ≡ buffer.old }
{
    if buffer.len() < LONGEST {
        return Intake {
            printed: Ok(refuse(empty(), 1, lines)),
            left: most,
        };
    }
    read_record(rt, most, buffer, room, ledger, map, lines)
}

// The bytes of a record that are not looked at.
pub fn skip(rt: HostRuntime, most: u64, buffer: &mut [u8]) {
    if buffer.is_empty() {
        return;
    }
    let mut left = most;
    // Stays: no index is counted; how far a turn leads the system says.
    while left > 0 {
        let end = at_most(buffer.len(), left);
        match fill(rt, &mut buffer[..end]) {
            Ok(n) if n > 0 => left -= n as u64,
            _ => return,
        }
    }
}
