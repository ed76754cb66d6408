// A record from standard input, turn by turn, without the lines of its fields: where its field list stands.
ghost use Rattle.std.specs.Prelude.{◌+◌, ◌≤◌, length, take};
ghost use Rattle.rules.specs.Listing.{list_from};
ghost use Rattle.listing.specs.Lines.{Counts};
ghost use Rattle.desk.specs.Feeding.{laid_of, empty_desk, longest};
ghost use Rattle.intake.specs.Turns.{round_of, going_on, Goes};
ghost use Rattle.walk.specs.Walks.{Ready, Adds, Walked};

use crate::{Walk, begin};
use intake::turns::{goes_on, read_once};
use listing::passing::pass_fields;

// One turn.
fn pass_on(
    rt: HostRuntime,
    walk: Walk,
    buffer: &mut [u8],
    room: &mut [u8],
    ledger: &mut [i64],
    map: &mut [u64],
) -> Walk
    requires { Ready walk.turn walk.spot buffer.old room.old ledger.old map.old }
    ensures goes { Goes walk.turn.held walk.turn.left (length buffer.old) result.turn × Counts result.spot (result.turn.held + result.turn.left) }
    ensures adds { Adds (round_of (going_on walk.turn.desk walk.turn.used walk.turn.held walk.turn.left)
        buffer.old room.old ledger.old map.old) walk.spot
        (list_from walk.spot (take result.turn.used buffer.new)).text
        (round_of result.turn buffer.new room.new ledger.new map.new) result.spot }
{
    let t = read_once(rt, walk.turn, buffer, room, ledger, map);
    Walk {
        turn: t,
        spot: pass_fields(walk.spot, &buffer[..t.used]),
        printed: 0,
    }
}

// Turn after turn, to the last one of a record of at most so many bytes.
// Stays: beside `read_through` (intake) and `list_through`: each has a state of its own, and an invariant about it, of which four lines of loop are the least part.
pub fn pass_through(
    rt: HostRuntime,
    most: u64,
    buffer: &mut [u8],
    room: &mut [u8],
    ledger: &mut [i64],
    map: &mut [u64],
) -> Walk
    requires { longest ≤ length buffer.old }
    ensures { Walked (laid_of empty_desk room.old ledger.old map.old) most
        (round_of result.turn buffer.new room.new ledger.new map.new) result.spot }
{
    let mut walk = begin(most);
    // Stays: no index is counted; a turn leads on by what was read.
    while walk.turn.left > 0 {
        walk = pass_on(rt, walk, buffer, room, ledger, map);
        if !goes_on(walk.turn.turned) {
            return walk;
        }
    }
    walk
}
