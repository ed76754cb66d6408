// A record in parts: what one reading gives goes to the desk with what was left over before it, and the rest waits at the front of the buffer for more.
ghost use Rattle.std.specs.Prelude.{◌≡◌, ◌+◌, ◌-◌, ◌≤◌, ◌<◌, min, length, drop};
ghost use Rattle.std.proofs.Math.Seq.{paste};
ghost use Rattle.laws.specs.Answers.{answer_said};
ghost use Rattle.desk.specs.Feeding.{laid_of, empty_desk, longest, Steady};
ghost use Rattle.edges.specs.Answers.{Within};
ghost use Rattle.intake.specs.Turns.{stopped_by, turned_by, round_of, round_fed, round_by, Goes, going_on, Stood, Leads};

use crate::turns::{goes_on, read_once};
use crate::{Turn, Turned};
use desk::{Desk, empty, feed_on};
use edges::fill;
use rules::Refusal;
use std::io;

// The smaller of the two.
pub fn at_most(space: usize, left: u64) -> usize
    ensures { result ≡ min space left }
{
    space.min(left as usize)
}

// The bytes from place `from` up to place `upto` move to the front: how many they are.
pub fn to_front(buffer: &mut [u8], from: usize, upto: usize) -> usize
    requires { (from ≤ upto) × (upto ≤ length buffer.old) }
    ensures value { result ≡ upto - from }
    ensures buffer_after { buffer.new ≡ paste buffer.old 0 (drop from buffer.old) (upto - from) }
{
    buffer.copy_within(from..upto, 0);
    upto - from
}

// What became of the bytes that went to the desk.
fn turned_by(outcome: Result<(), Refusal>) -> Turned
    ensures { result ≡ turned_by (answer_said outcome) }
{
    match outcome {
        Ok(()) => Turned::On,
        Err(refusal) => Turned::Refused(refusal.number()),
    }
}

// The whole fields of the first `upto` bytes go to the desk, as the last turn left it; the rest is held behind them.
fn digest(
    desk: Desk,
    buffer: &[u8],
    upto: usize,
    left: u64,
    room: &mut [u8],
    ledger: &mut [i64],
    map: &mut [u64],
) -> Turn
    requires { (upto ≤ length buffer.now) × Steady (laid_of desk room.old ledger.old map.old) }
    ensures { round_of result buffer.now room.new ledger.new map.new
        ≡ round_fed (laid_of desk room.old ledger.old map.old) upto left buffer.now }
{
    let x = feed_on(desk, &buffer[..upto], room, ledger, map);
    Turn {
        turned: turned_by(x.outcome),
        desk: x.desk,
        used: x.used,
        held: upto - x.used,
        left,
    }
}

// What a reading that gave no bytes makes of a turn: only the end of the input ends it, all else is a fault.
fn stopped_by(got: io::Result<usize>) -> Turned
    ensures { result ≡ stopped_by got }
{
    match got {
        Ok(0) => Turned::Ended,
        Ok(_) => Turned::Failed,
        Err(_) => Turned::Failed,
    }
}

// What a reading gave goes to the desk with the bytes held; without bytes the turn stops.
fn turn_by(
    got: io::Result<usize>,
    desk: Desk,
    held: usize,
    left: u64,
    buffer: &[u8],
    room: &mut [u8],
    ledger: &mut [i64],
    map: &mut [u64],
) -> Turn
    requires { (held ≤ length buffer.now) × Within (length buffer.now - held) got × Within left got × Steady (laid_of desk room.old ledger.old map.old) }
    ensures { round_of result buffer.now room.new ledger.new map.new
        ≡ round_by got (laid_of desk room.old ledger.old map.old) held left buffer.now }
{
    match got {
        Ok(n) if n > 0 => digest(desk, buffer, held + n, left - n as u64, room, ledger, map),
        _ => Turn {
            turned: stopped_by(got),
            desk,
            used: 0,
            held,
            left,
        },
    }
}

// Reads once behind the bytes held at the front, as far as the buffer and the record go.
pub fn read_behind(
    rt: HostRuntime,
    desk: Desk,
    held: usize,
    left: u64,
    buffer: &mut [u8],
    room: &mut [u8],
    ledger: &mut [i64],
    map: &mut [u64],
) -> Turn
    requires { (held < longest) × (longest ≤ length buffer.old) × (1 ≤ left) × Steady (laid_of desk room.old ledger.old map.old) }
    ensures goes { Goes held left (length buffer.old) result }
    ensures leads { Leads (round_of (going_on desk 0 held left) buffer.old room.old ledger.old map.old)
        (round_of result buffer.new room.new ledger.new map.new) }
{
    let space = buffer.len() - held;
    let end = held + at_most(space, left);
    let got = fill(rt, &mut buffer[held..end]);
    turn_by(got, desk, held, left, buffer, room, ledger, map)
}

// Turn after turn, to the end of a record of at most so many bytes.
pub fn read_through(
    rt: HostRuntime,
    most: u64,
    buffer: &mut [u8],
    room: &mut [u8],
    ledger: &mut [i64],
    map: &mut [u64],
) -> Turn
    requires { longest ≤ length buffer.old }
    ensures { Stood (laid_of empty_desk room.old ledger.old map.old) most
        (round_of result buffer.new room.new ledger.new map.new) }
{
    let mut turn = Turn {
        turned: Turned::On,
        desk: empty(),
        used: 0,
        held: 0,
        left: most,
    };
    // Stays: no index is counted; a turn leads on by what was read.
    while turn.left > 0 {
        turn = read_once(rt, turn, buffer, room, ledger, map);
        if !goes_on(turn.turned) {
            return turn;
        }
    }
    turn.turned = Turned::Ended;
    turn
}
