// The reader: a record's fields, in order, to the judge.
#![tactic(auto)]

ghost use Rattle.std.specs.Prelude.{◌≡◌};
ghost use Rattle.laws.specs.Answers.{answer_said};
ghost use Rattle.state.specs.State.{left};
ghost use Rattle.opening.specs.Answers.{unopened, open_left, front_opened};
ghost use Rattle.reading.specs.Answers.{started_reading, read_ground};
ghost use Rattle.reader.specs.Answers.{read_said, all_said, read_left, all_left, ending_of};

use fields::front_of;
use opening::{OpenAnswer, OpenStep, Opening};
use reading::{Reading, Step};
use rules::{Amounts, Refusal};
use state::Run;

#[derive(Clone, Copy)]
pub struct ReadAnswer {
    pub step: Result<Step, Refusal>,
    pub reading: Reading,
}

// How many fields were accepted, how many bytes they took, and the answer after the last of them.
#[derive(Clone, Copy)]
pub struct AllAnswer {
    pub reading: Reading,
    pub fields: usize,
    pub used: usize,
    pub last: Result<Step, Refusal>,
}

// Before the first field: until field 2 the vehicle is seventeen times the character 0.
pub fn blank() -> Opening
    ensures { result ≡ unopened }
{
    Opening {
        fields: 0,
        vehicle: [48; 17],
        cycle: 0,
    }
}

// One of the first four fields, at the front of the input.
pub fn open(
    opening: Opening,
    input: &[u8],
    room: &mut [u8],
    ledger: &mut [i64],
    map: &mut [u64],
) -> OpenAnswer<Refusal>
    ensures { open_left result room.new ledger.new map.new
        ≡ front_opened opening room.old ledger.old map.old input.now }
{
    if let Err(refusal) = opening::open_refusal(opening, room) {
        return opening::refused_at(opening, refusal);
    }
    match front_of(input) {
        Ok(None) => OpenAnswer {
            step: Ok(OpenStep::Incomplete),
            opening,
        },
        Err(impossible) => opening::refused_at(opening, impossible),
        Ok(Some(front)) => opening::open_whole(
            opening,
            room,
            ledger,
            map,
            front.tag,
            &input[3..3 + front.size],
        ),
    }
}

// The reading that starts with the run, for the opening's vehicle.
pub fn reading_of(opening: Opening, run: Run) -> Reading
    ensures { result ≡ started_reading opening.vehicle run }
{
    let vehicle = opening.vehicle;
    Reading {
        vehicle,
        place: 0,
        passed: 0,
        amounts: Amounts {
            before: 0,
            after: 0,
            charge: None,
        },
        run,
    }
}

// The field at the front of the input.
pub fn read(
    reading: Reading,
    input: &[u8],
    cycle: &[u8],
    ledger: &mut [i64],
    map: &mut [u64],
) -> ReadAnswer
    ensures { left (read_said result) ledger.new map.new
        ≡ read_left reading cycle.now ledger.old map.old input.now }
{
    if let Err(ground) = reading::read_refusal(reading, cycle, ledger, map) {
        return ReadAnswer {
            step: Err(ground),
            reading,
        };
    }
    let me = reading.vehicle;
    let t = reading.run.track.tolerances;
    let k = reading::along_at(reading, cycle);
    let x = reading::one_field(&me, cycle, t, k, ledger, map, input);
    ReadAnswer {
        step: x.step,
        reading: reading::with_along(reading, x.along),
    }
}

// All whole fields of the input, on memory, state and cycle that have no 1 or 2.
pub fn read_fields(
    reading: Reading,
    input: &[u8],
    cycle: &[u8],
    ledger: &mut [i64],
    map: &mut [u64],
) -> AllAnswer
    requires { read_ground reading cycle.now ledger.old map.old ≡ 0 }
    ensures { left (all_said result) ledger.new map.new
        ≡ all_left reading cycle.now ledger.old map.old input.now }
{
    let me = reading.vehicle;
    let t = reading.run.track.tolerances;
    let k = reading::along_at(reading, cycle);
    let x = reading::all_fields(&me, cycle, t, k, ledger, map, input);
    AllAnswer {
        reading: reading::with_along(reading, x.along),
        fields: x.fields,
        used: x.used,
        last: x.last,
    }
}

// All whole fields of the input: memory, state and cycle are tested once.
pub fn read_all(
    reading: Reading,
    input: &[u8],
    cycle: &[u8],
    ledger: &mut [i64],
    map: &mut [u64],
) -> AllAnswer
    ensures { left (all_said result) ledger.new map.new
        ≡ all_left reading cycle.now ledger.old map.old input.now }
{
    if let Err(ground) = reading::read_refusal(reading, cycle, ledger, map) {
        return AllAnswer {
            reading,
            fields: 0,
            used: 0,
            last: Err(ground),
        };
    }
    read_fields(reading, input, cycle, ledger, map)
}

// Whether the input may end where the run has started or not, with so many bytes of an unfinished field left.
pub fn ended(started: bool, left: usize) -> Result<(), Refusal>
    ensures { answer_said result ≡ ending_of started left }
{
    if !started {
        return Err(Refusal::Unfinished);
    }
    if left != 0 {
        return Err(Refusal::Unfinished);
    }
    Ok(())
}
