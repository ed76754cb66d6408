// One turn of reading, and what became of it.
ghost use Rattle.std.specs.Prelude.{◌≡◌, ◌+◌, ◌≤◌, ◌<◌, length};
ghost use Rattle.desk.specs.Feeding.{laid_of, longest, Steady};
ghost use Rattle.intake.specs.Turns.{is_on, is_failed, round_of, Goes, going_on, Leads};

use crate::parts::{read_behind, to_front};
use crate::{Turn, Turned};

// One turn behind another: the bytes held behind those taken move to the front, and what is read comes behind them.
pub fn read_once(
    rt: HostRuntime,
    turn: Turn,
    buffer: &mut [u8],
    room: &mut [u8],
    ledger: &mut [i64],
    map: &mut [u64],
) -> Turn
    requires { (turn.held < longest)
        × (turn.used + turn.held ≤ length buffer.old)
        × (longest ≤ length buffer.old)
        × (1 ≤ turn.left)
        × Steady (laid_of turn.desk room.old ledger.old map.old) }
    ensures goes { Goes turn.held turn.left (length buffer.old) result }
    ensures leads { Leads (round_of (going_on turn.desk turn.used turn.held turn.left) buffer.old room.old ledger.old map.old)
        (round_of result buffer.new room.new ledger.new map.new) }
{
    let kept = to_front(buffer, turn.used, turn.used + turn.held);
    read_behind(rt, turn.desk, kept, turn.left, buffer, room, ledger, map)
}

// Whether another turn follows.
pub fn goes_on(turned: Turned) -> bool
    ensures { result ≡ is_on turned }
{
    matches!(turned, Turned::On)
}

// Whether reading failed.
pub fn has_failed(turned: Turned) -> bool
    ensures { result ≡ is_failed turned }
{
    matches!(turned, Turned::Failed)
}
