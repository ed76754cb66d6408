// A record's bytes as they arrive: every whole field goes to the reader, what is left over waits for more.
#![tactic(auto)]

mod beginning;

ghost use Rattle.std.specs.Prelude.{◌≡◌, ◌+◌, ◌≤◌, true};
ghost use Rattle.laws.specs.Answers.{answer_said, refused_by};
ghost use Rattle.records.specs.Stage.{run_on};
ghost use Rattle.reading.specs.Answers.{step_said};
ghost use Rattle.desk.specs.Feeding.{empty_desk, laid_of, fed_left, stage_on, fed_by, outcome_by, feed_of};
ghost use Rattle.desk.specs.Feeding.{most_fields, started_ground, desk_ground, Steady};

use beginning::{open_all, stopped};
use opening::{Opening, open_refusal};
use reader::{blank, read_fields, reading_of};
use reading::{Reading, Step, read_refusal};
use rules::limits::{MOST_OFFERED, MOST_PASSED};
use rules::{End, Method, Moment, Refusal, Tolerances};
use state::{Ends, Progress, Run, Stretch, Stretched, Track};

// A record as far as it was read: until the start the opening, after it the reading; and how many fields were accepted.
#[derive(Clone, Copy)]
pub struct Desk {
    // Stays: both are in use after the start, as the opening knows how long the cycle in the room is; `empty_desk` and `desk_after` say it so.
    pub started: bool,
    pub opening: Opening,
    pub reading: Reading,
    pub fields: u64,
}

// What became of the bytes: all whole fields are taken and more bytes are wanted, or a field is refused; how many bytes were taken, and the desk with them.
#[derive(Clone, Copy)]
pub struct Fed {
    pub outcome: Result<(), Refusal>,
    pub used: usize,
    pub desk: Desk,
}

// No record has more fields: each moves the place in the order on, of which there are nine, offers a sample or is passed over.
const MOST_FIELDS: u64 = MOST_OFFERED as u64 + MOST_PASSED as u64 + 9;

// Before the first byte. The reading is none until the start: it has a run of no cycle.
pub fn empty() -> Desk
    ensures { result ≡ empty_desk }
{
    let opening = blank();
    let run = Run {
        track: Track {
            seconds: 0,
            ends: Ends {
                first: 0,
                second: 0,
                third: 0,
                fourth: 0,
            },
            tolerances: Tolerances {
                speed: 0,
                time: 0,
                allowance: 0,
            },
            method: Method::Regular,
        },
        progress: Progress {
            offered: 0,
            counted: 0,
            end: End::None,
            held: Moment {
                speed: 0,
                energy: 0,
            },
        },
        stretched: Stretched {
            in_m: Stretch {
                energy: 0,
                distance: 0,
            },
            in_e: Stretch {
                energy: 0,
                distance: 0,
            },
            watch: 0,
        },
    };
    Desk {
        started: false,
        opening,
        reading: reading_of(opening, run),
        fields: 0,
    }
}

// What the answer after the last accepted field says of the bytes.
fn outcome_of(step: Result<Step, Refusal>) -> Result<(), Refusal>
    ensures { answer_said result ≡ outcome_by (step_said step) }
{
    step?;
    Ok(())
}

// All whole fields after the start, with the cycle in the room.
fn read_on(desk: Desk, input: &[u8], room: &[u8], ledger: &mut [i64], map: &mut [u64]) -> Fed
    requires { (desk.fields ≤ most_fields + 4)
        × (desk.started ≡ true)
        × (started_ground (laid_of desk room.now ledger.old map.old) ≡ 0) }
    ensures { fed_left result room.now ledger.new map.new
        ≡ (let x = laid_of desk room.now ledger.old map.old in fed_by x (run_on (stage_on x) input.now)) }
{
    let x = read_fields(
        desk.reading,
        input,
        &room[..desk.opening.cycle],
        ledger,
        map,
    );
    Fed {
        outcome: outcome_of(x.last),
        used: x.used,
        desk: Desk {
            reading: x.reading,
            fields: desk.fields + x.fields as u64,
            ..desk
        },
    }
}

// All whole fields of the input, on a desk as the last call left it: until the start by `open`, after it by one `read_fields` on the rest.
pub fn feed_on(
    desk: Desk,
    input: &[u8],
    room: &mut [u8],
    ledger: &mut [i64],
    map: &mut [u64],
) -> Fed
    requires { Steady (laid_of desk room.old ledger.old map.old) }
    ensures { fed_left result room.new ledger.new map.new
        ≡ feed_of (laid_of desk room.old ledger.old map.old) input.now }
{
    let x = open_all(desk, input, room, ledger, map);
    let on = x.desk;
    if !on.started {
        return x;
    }
    let used = x.used;
    let y = read_on(on, &input[used..], room, ledger, map);
    Fed {
        used: used + y.used,
        ..y
    }
}

// 1 or 2, unless the desk may go on.
pub fn desk_refusal(desk: Desk, room: &[u8], ledger: &[i64], map: &[u64]) -> Result<(), Refusal>
    ensures { refused_by result ≡ desk_ground (laid_of desk room.now ledger.now map.now) }
{
    if MOST_FIELDS < desk.fields {
        return Err(Refusal::Ground);
    }
    if !desk.started {
        return open_refusal(desk.opening, room);
    }
    let size = desk.opening.cycle;
    if room.len() < size {
        return Err(Refusal::Ground);
    }
    read_refusal(desk.reading, &room[..size], ledger, map)
}

// All whole fields of the input, on any desk: desk, memory and cycle are tested once.
pub fn feed(desk: Desk, input: &[u8], room: &mut [u8], ledger: &mut [i64], map: &mut [u64]) -> Fed
    ensures { fed_left result room.new ledger.new map.new
        ≡ feed_of (laid_of desk room.old ledger.old map.old) input.now }
{
    if let Err(refusal) = desk_refusal(desk, room, ledger, map) {
        return stopped(desk, Err(refusal));
    }
    feed_on(desk, input, room, ledger, map)
}
