// A record from standard input, turn by turn, with the lines of its fields.
#![tactic(auto)]

pub mod passing;
pub mod whole;

ghost use Rattle.std.specs.Prelude.{◌≡◌, ◌+◌, ◌≤◌, length, take, drop};
ghost use Rattle.rules.specs.Listing.{first_spot};
ghost use Rattle.laws.specs.Answers.{refuses};
ghost use Rattle.sheet.specs.Overlaid.{Wrote};
ghost use Rattle.listing.specs.Lines.{most_line, Counts};
ghost use Rattle.desk.specs.Feeding.{empty_desk, most_fields};
ghost use Rattle.intake.specs.Turns.{round_of, going_on, Goes};
ghost use Rattle.walk.specs.Walks.{most_lines, Ready, Adds, last_text, last_of};

use desk::empty;
use intake::turns::read_once;
use intake::{Turn, Turned};
use listing::list_fields;
use listing::refused::refused_field;
use reader::ended;
use rules::Spot;

// The last turn, where the field list stands behind it, and how many bytes of lines the turn brought.
#[derive(Clone, Copy)]
pub struct Walk {
    pub turn: Turn,
    pub spot: Spot,
    pub printed: usize,
}

// Before the first field.
fn first_spot() -> Spot
    ensures { result ≡ first_spot }
{
    Spot {
        fields: 0,
        offset: 0,
        vehicle: [48; 17],
        blocks: 0,
    }
}

// Before the first byte of a record of at most so many.
fn begin(most: u64) -> Walk
    ensures { result ≡ record { turn = going_on empty_desk 0 0 most; spot = first_spot; printed = 0 } }
{
    Walk {
        turn: Turn {
            turned: Turned::On,
            desk: empty(),
            used: 0,
            held: 0,
            left: most,
        },
        spot: first_spot(),
        printed: 0,
    }
}

// One turn: the lines of the fields that it took stand at the front of the lines.
fn walk_on(
    rt: HostRuntime,
    walk: Walk,
    buffer: &mut [u8],
    room: &mut [u8],
    ledger: &mut [i64],
    map: &mut [u64],
    lines: &mut [u8],
) -> Walk
    requires { Ready walk.turn walk.spot buffer.old room.old ledger.old map.old × (most_lines (length buffer.old) ≤ length lines.old) }
    ensures goes { Goes walk.turn.held walk.turn.left (length buffer.old) result.turn × Counts result.spot (result.turn.held + result.turn.left) }
    ensures most_line_in_bounds { result.printed + most_line ≤ length lines.old }
    ensures adds { Adds (round_of (going_on walk.turn.desk walk.turn.used walk.turn.held walk.turn.left)
        buffer.old room.old ledger.old map.old) walk.spot
        (take result.printed lines.new)
        (round_of result.turn buffer.new room.new ledger.new map.new) result.spot }
{
    let t = read_once(rt, walk.turn, buffer, room, ledger, map);
    let x = list_fields(walk.spot, &buffer[..t.used], lines);
    Walk {
        turn: t,
        spot: x.spot,
        printed: x.next,
    }
}

// The line of what is refused behind a turn.
// Stays: the number and no `Refusal`: it is handed on to `refused_field`, and comes from `Turned` too.
fn refused_line(walk: Walk, number: u32, buffer: &[u8], lines: &mut [u8]) -> usize
    requires most_line_in_bounds { (walk.printed + most_line ≤ length lines.old) × (walk.turn.used + walk.turn.held ≤ length buffer.now) }
    requires fields_le_most_fields { walk.turn.desk.fields ≤ most_fields }
    ensures { Wrote most_line lines.old walk.printed
        (last_text (refuses number) walk.turn.desk.fields walk.spot.offset (take walk.turn.held (drop walk.turn.used buffer.now)))
        lines.new result }
{
    let turn = walk.turn;
    let end = turn.used + turn.held;
    let k = turn.desk.fields + 1;
    refused_field(
        lines,
        walk.printed,
        k,
        walk.spot.offset,
        number,
        &buffer[turn.used..end],
    )
}

// The last line, behind those of the last turn; none where the record may end there.
fn last_line(walk: Walk, buffer: &[u8], lines: &mut [u8]) -> usize
    requires most_line_in_bounds { (walk.printed + most_line ≤ length lines.old) × (walk.turn.used + walk.turn.held ≤ length buffer.now) }
    requires fields_le_most_fields { walk.turn.desk.fields ≤ most_fields }
    ensures { Wrote most_line lines.old walk.printed (last_of walk.turn walk.spot buffer.now) lines.new result }
{
    let turn = walk.turn;
    if let Turned::Refused(number) = turn.turned {
        return refused_line(walk, number, buffer, lines);
    }
    match ended(turn.desk.started, turn.held) {
        Ok(()) => walk.printed,
        Err(unfinished) => refused_line(walk, unfinished.number(), buffer, lines),
    }
}
