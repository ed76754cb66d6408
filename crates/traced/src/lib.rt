// A record from standard input to its trace.
#![tactic(auto)]

ghost use Rattle.std.specs.Prelude.{◌≡◌, ◌≤◌, ◌<◌, length};
ghost use Rattle.desk.specs.Feeding.{laid_of, empty_desk, longest};
ghost use Rattle.prints.specs.Printed.{PrintsIn};
ghost use Rattle.intake.specs.Turns.{Unread};
ghost use Rattle.traced.specs.Recorded.{room_for, trace_of, Recorded};

use desk::empty;
use edges::Fault;
use intake::turns::has_failed;
use intake::{Intake, LONGEST, Turned};
use prints::refuse;
use tracing::trace_close;
use walk::Walk;
use walk::passing::pass_through;

// What is printed of a record that was walked through, to its end or to a refused field.
// Stays: beside `print_record` (intake): the texts need lines of other lengths (`room_for`), and two lines would not get fewer by a closure.
fn print_trace(walk: Walk, room: &[u8], ledger: &[i64], map: &[u64], lines: &mut [u8]) -> usize
    ensures { PrintsIn (room_for walk.turn.turned)
        (trace_of walk.turn (laid_of walk.turn.desk room.now ledger.now map.now) walk.spot.blocks)
        lines.old result lines.new }
{
    let turn = walk.turn;
    match turn.turned {
        Turned::Refused(number) => refuse(turn.desk, number, lines),
        _ => trace_close(
            turn.desk,
            walk.spot.blocks,
            turn.held,
            room,
            ledger,
            map,
            lines,
        ),
    }
}

// A record of at most so many bytes: its trace stands in the lines.
fn trace_through(
    rt: HostRuntime,
    most: u64,
    buffer: &mut [u8],
    room: &mut [u8],
    ledger: &mut [i64],
    map: &mut [u64],
    lines: &mut [u8],
) -> Intake
    requires { longest ≤ length buffer.old }
    ensures { Recorded (laid_of empty_desk room.old ledger.old map.old) most lines.old
        result buffer.new room.new ledger.new map.new lines.new }
{
    let walk = pass_through(rt, most, buffer, room, ledger, map);
    let printed = if has_failed(walk.turn.turned) {
        Err(Fault::Input)
    } else {
        Ok(print_trace(walk, room, ledger, map, lines))
    };
    Intake {
        printed,
        left: walk.turn.left,
    }
}

// The same, of any buffer: one that is too short for a field is refused 1 before all else.
// Stays: beside `intake::take_record`: a step that is handed over would have to lend all slices on, and each of the two promises a `Recorded` of its own.
pub fn trace_record(
    rt: HostRuntime,
    most: u64,
    buffer: &mut [u8],
    room: &mut [u8],
    ledger: &mut [i64],
    map: &mut [u64],
    lines: &mut [u8],
) -> Intake
    ensures recorded { longest ≤ length buffer.old
        → Recorded (laid_of empty_desk room.old ledger.old map.old) most lines.old
        result buffer.new room.new ledger.new map.new lines.new }
    ensures unread { length buffer.old < longest
        → Unread (laid_of empty_desk room.old ledger.old map.old) most lines.old
        result room.new ledger.new map.new lines.new }
    ensures buffer_unchanged { length buffer.old < longest → buffer.new ≡ buffer.old }
{
    if buffer.len() < LONGEST {
        return Intake {
            printed: Ok(refuse(empty(), 1, lines)),
            left: most,
        };
    }
    trace_through(rt, most, buffer, room, ledger, map, lines)
}
