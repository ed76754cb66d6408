// The first four fields: mark, vehicle number, cycle and tolerances.
#![tactic(auto)]

ghost use Rattle.std.specs.Prelude.{Err, ℕ, ◌≡◌, true, ◌+◌, ◌≤◌, length};
ghost use Rattle.rules.specs.Words.{unless};
ghost use Rattle.rules.specs.Cycle.{valid};
ghost use Rattle.laws.specs.Answers.{refused_by};
ghost use Rattle.state.specs.State.{left};
ghost use Rattle.rules.specs.Table.{length_allowed, tags};
ghost use Rattle.rules.specs.Values.{tolerances_in};
ghost use Rattle.records.specs.Stage.{written};
ghost use Rattle.opening.specs.Answers.{is_opening, open_ground, open_said, open_said_by, open_left, field_opened};
ghost use Rattle.opening.specs.Begin.{refused_at, number_answer, cycle_answer, start_opened};

use cycle::is_cycle;
use fields::{is_number, is_value};
use judge::start;
use numbers::read16;
use rules::limits::MOST_BYTES;
use rules::{Method, Refusal, Tolerances};
use state::Run;

// Until the start: how many of the first four fields are accepted, the vehicle, and how many bytes the cycle in the room has.
#[derive(Clone, Copy)]
pub struct Opening {
    pub fields: u32,
    pub vehicle: [u8; 17],
    pub cycle: usize,
}

// What became of a field until the start: taken with so many bytes, taken and the run started, or not finished.
#[derive(Clone, Copy)]
pub enum OpenStep {
    Taken(usize),
    Started(usize, Run),
    Incomplete,
}

// A refused field leaves the opening as it was; R is what says why it is refused.
#[derive(Clone, Copy)]
pub struct OpenAnswer<R> {
    pub step: Result<OpenStep, R>,
    pub opening: Opening,
}

// The bytes of v at the front of the room, and nothing beyond.
fn keep(room: &mut [u8], v: &[u8])
    requires { length v.now ≤ length room.old }
    ensures { room.new ≡ written room.old v.now }
{
    room[..v.len()].copy_from_slice(v);
}

// The 17 characters of a vehicle number.
pub fn characters_of(v: &[u8]) -> [u8; 17]
    requires { length v.now ≡ 17 }
    ensures { result ≡ v.now }
{
    let mut characters = [0; 17];
    keep(&mut characters[..], v);
    characters
}

fn tolerances_of(v: &[u8]) -> Tolerances
    requires { 6 ≤ length v.now }
    ensures { result ≡ tolerances_in v.now }
{
    Tolerances {
        speed: read16(v, 0) as u32,
        time: read16(v, 2) as u32,
        allowance: read16(v, 4) as u32,
    }
}

// Whether no number of the opening is beyond its limits.
#[tactic(auto, unfolding(crate::specs::Answers::is_opening))]
fn is_opening(o: Opening) -> bool
    ensures { result ≡ is_opening o }
{
    o.fields <= 3 && o.cycle <= MOST_BYTES && is_number(&o.vehicle)
}

// 1, unless a field may be looked at.
pub fn open_refusal(o: Opening, room: &[u8]) -> Result<(), Refusal>
    ensures { refused_by result ≡ open_ground o room.now }
{
    if room.len() < MOST_BYTES {
        return Err(Refusal::Ground);
    }
    if !is_opening(o) {
        return Err(Refusal::Ground);
    }
    Ok(())
}

// A refused field leaves the opening as it was, whatever says why: a `Refusal`, or any number.
pub fn refused_at<R>(o: Opening, refusal: R) -> OpenAnswer<R>
    ensures value { result ≡ record { step = Err refusal; opening = o } }
    ensures said { (said : R → ℕ) → open_said_by said result ≡ refused_at o (said refusal) }
{
    OpenAnswer {
        step: Err(refusal),
        opening: o,
    }
}

// The mark and the tolerances leave nothing in the opening but their count.
fn with_field(o: Opening) -> Opening
    requires { o.fields ≤ 3 }
    ensures { result ≡ record { fields = o.fields + 1; vehicle = o.vehicle; cycle = o.cycle } }
{
    Opening {
        fields: o.fields + 1,
        ..o
    }
}

// The vehicle number, in a field of n bytes.
fn open_number(o: Opening, v: &[u8], n: usize) -> OpenAnswer<Refusal>
    requires { (o.fields ≤ 3) × (length v.now ≡ 17) }
    ensures { open_said result ≡ number_answer o v.now n }
{
    if !is_number(v) {
        return refused_at(o, Refusal::Vehicle);
    }
    OpenAnswer {
        step: Ok(OpenStep::Taken(n)),
        opening: Opening {
            fields: o.fields + 1,
            vehicle: characters_of(v),
            ..o
        },
    }
}

// The cycle, in a field of n bytes.
fn open_cycle(o: Opening, room: &mut [u8], v: &[u8], n: usize) -> OpenAnswer<Refusal>
    requires { (o.fields ≤ 3) × (length v.now ≤ length room.old) }
    ensures result_value { open_said result ≡ cycle_answer o v.now n }
    ensures room_after { room.new ≡ unless room.old (valid v.now) (written room.old v.now) }
{
    if !is_cycle(v) {
        return refused_at(o, Refusal::Cycle);
    }
    keep(room, v);
    OpenAnswer {
        step: Ok(OpenStep::Taken(n)),
        opening: Opening {
            fields: o.fields + 1,
            cycle: v.len(),
            ..o
        },
    }
}

// The tolerances, in a field of n bytes: the run starts with the cycle in the room.
fn open_start(
    o: Opening,
    room: &[u8],
    ledger: &mut [i64],
    map: &mut [u64],
    v: &[u8],
    n: usize,
) -> OpenAnswer<Refusal>
    requires { (o.fields ≤ 3) × (o.cycle ≤ length room.now) × (6 ≤ length v.now) }
    ensures { left (open_said result) ledger.new map.new
        ≡ start_opened o room.now ledger.old map.old v.now n }
{
    let size = o.cycle;
    let answer = start(
        &room[..size],
        tolerances_of(v),
        Method::Regular,
        ledger,
        map,
    );
    match answer {
        Err(refusal) => refused_at(o, refusal),
        Ok(run) => OpenAnswer {
            step: Ok(OpenStep::Started(n, run)),
            opening: with_field(o),
        },
    }
}

// A whole field of an allowed length.
pub fn open_whole(
    o: Opening,
    room: &mut [u8],
    ledger: &mut [i64],
    map: &mut [u64],
    tag: u8,
    v: &[u8],
) -> OpenAnswer<Refusal>
    requires { (length_allowed tags tag (length v.now) ≡ true) × (open_ground o room.old ≡ 0) }
    ensures { open_left result room.new ledger.new map.new
        ≡ field_opened o room.old ledger.old map.old (record { tag = tag; value = v.now }) }
{
    if !is_value(tag, v) {
        return refused_at(o, Refusal::Field);
    }
    let n = 3 + v.len();
    if tag as u32 != o.fields + 1 {
        return refused_at(o, Refusal::Order);
    }
    match tag {
        2 => open_number(o, v, n),
        3 => open_cycle(o, room, v, n),
        4 => open_start(o, room, ledger, map, v, n),
        _ => OpenAnswer {
            step: Ok(OpenStep::Taken(n)),
            opening: with_field(o),
        },
    }
}
