// Fields after the start: the tests before them, one field, and all of an input.
#![tactic(auto)]

mod bringing;
mod own;

ghost use Rattle.std.specs.Prelude.{◌≡◌, true, ◌≤◌, length};
ghost use Rattle.rules.specs.Cycle.{valid};
ghost use Rattle.rules.specs.Bench.{most_time_tolerance};
ghost use Rattle.rules.specs.Table.{length_allowed, tags};
ghost use Rattle.reading.specs.Answers.{step_said, bytes_of, read_ground};
ghost use Rattle.rules.specs.Plan.{plan};
ghost use Rattle.values.specs.Limits.{is_method};
ghost use Rattle.laws.specs.Answers.{refused_by};
ghost use Rattle.state.specs.State.{left};
ghost use Rattle.reading.specs.Along.{along_at, stepped_said, passage_said, with_along, whole_taken, front_taken, all_taken, Ready};

use bringing::take_content;
use contents::content_of;
use fields::front_of;
use own::is_reading;
use rules::{Amounts, Method, Refusal, Tolerances};
use state::{Run, ground_refusal, with_method};
use step::{Taken, going_at, with_taken};

// After the start. Place in the order: 0 after the tolerances, 1 after a field 8, 2 after a 6 before, 3 after an own block, 4 after a 6 after, 5 after a 7.
// Stays: the place is a number, since one past the last is a state that `is_reading` refuses 1 (crates/refusals tries 6).
#[derive(Clone, Copy)]
pub struct Reading {
    pub vehicle: [u8; 17],
    pub place: u32,
    pub passed: u32,
    pub amounts: Amounts,
    pub run: Run,
}

// What became of a field after the start: taken with so many bytes, passed over, or not finished.
#[derive(Clone, Copy)]
pub enum Step {
    Taken(usize),
    Passed(usize),
    Incomplete,
}

// A reading while fields are taken: what changes in it, and where its run stands.
#[derive(Clone, Copy)]
pub struct Along {
    pub place: u32,
    pub passed: u32,
    pub amounts: Amounts,
    pub method: Method,
    pub taken: Taken,
}

// The answer to a field, and the reading with it.
#[derive(Clone, Copy)]
pub struct Stepped {
    pub step: Result<Step, Refusal>,
    pub along: Along,
}

// The reading with all fields of an input, how many they are, how many bytes they take, and the answer after the last of them.
#[derive(Clone, Copy)]
pub struct Passage {
    pub along: Along,
    pub fields: usize,
    pub used: usize,
    pub last: Result<Step, Refusal>,
}

// 1 or 2, unless a field may be looked at.
pub fn read_refusal(r: Reading, cycle: &[u8], ledger: &[i64], map: &[u64]) -> Result<(), Refusal>
    ensures { refused_by result ≡ read_ground r cycle.now ledger.now map.now }
{
    if !is_reading(r) {
        return Err(Refusal::Ground);
    }
    ground_refusal(r.run, cycle, ledger, map)
}

// Where the reading stands.
pub fn along_at(r: Reading, cycle: &[u8]) -> Along
    requires { (valid cycle.now ≡ true)
        × (r.run.track.tolerances.time ≤ most_time_tolerance)
        × (is_method r.run.track.method ≡ true) }
    ensures { result ≡ along_at r cycle.now }
{
    let run = r.run;
    Along {
        place: r.place,
        passed: r.passed,
        amounts: r.amounts,
        method: run.track.method,
        taken: Taken {
            going: going_at(cycle, run),
            stretched: run.stretched,
        },
    }
}

// The reading, taken on to where it stands now.
pub fn with_along(r: Reading, k: Along) -> Reading
    ensures { result ≡ with_along r k }
{
    Reading {
        place: k.place,
        passed: k.passed,
        amounts: k.amounts,
        run: with_taken(with_method(r.run, k.method), k.taken),
        ..r
    }
}

// A whole field of an allowed length.
fn whole_field(
    me: &[u8],
    cycle: &[u8],
    t: Tolerances,
    k: Along,
    ledger: &mut [i64],
    map: &mut [u64],
    tag: u8,
    v: &[u8],
) -> Stepped
    requires { Ready me.now (plan cycle.now t k.method) (left k ledger.old map.old) × (length_allowed tags tag (length v.now) ≡ true) }
    ensures { left (stepped_said result) ledger.new map.new
        ≡ whole_taken cycle.now t k ledger.old map.old me.now (record { tag = tag; value = v.now }) }
{
    let offered = k.taken.going.progress.offered;
    let c = content_of(me, k.place, k.passed, offered, tag, v);
    take_content(cycle, t, k, ledger, map, v, c, 3 + v.len())
}

// The field at the front of the input.
pub fn one_field(
    me: &[u8],
    cycle: &[u8],
    t: Tolerances,
    k: Along,
    ledger: &mut [i64],
    map: &mut [u64],
    input: &[u8],
) -> Stepped
    requires { Ready me.now (plan cycle.now t k.method) (left k ledger.old map.old) }
    ensures { left (stepped_said result) ledger.new map.new
        ≡ front_taken cycle.now t k ledger.old map.old me.now input.now }
{
    match front_of(input) {
        Ok(None) => Stepped {
            step: Ok(Step::Incomplete),
            along: k,
        },
        Err(refusal) => Stepped {
            step: Err(refusal),
            along: k,
        },
        Ok(Some(front)) => {
            whole_field(
                me,
                cycle,
                t,
                k,
                ledger,
                map,
                front.tag,
                &input[3..3 + front.size],
            )
        }
    }
}

// How many bytes an accepted field has; 0 where the answer accepts none.
// Stays: 0 and no Option, as `bytes_of` of the specs says it and the laws of the loop take it.
fn bytes_of(step: Result<Step, Refusal>) -> usize
    ensures { result ≡ bytes_of (step_said step) }
{
    match step {
        Ok(Step::Taken(n)) => n,
        Ok(Step::Passed(n)) => n,
        Ok(Step::Incomplete) => 0,
        Err(_) => 0,
    }
}

// All whole fields of the input.
pub fn all_fields(
    me: &[u8],
    cycle: &[u8],
    t: Tolerances,
    k: Along,
    ledger: &mut [i64],
    map: &mut [u64],
    input: &[u8],
) -> Passage
    requires { Ready me.now (plan cycle.now t k.method) (left k ledger.old map.old) }
    ensures { left (passage_said result) ledger.new map.new
        ≡ all_taken cycle.now t k ledger.old map.old me.now input.now }
{
    let size = input.len();
    let mut along = k;
    let mut fields = 0;
    let mut used = 0;
    // Stays: no index is counted; each field's own size leads on, and the answer that ends the loop is handed out.
    while used < size {
        let x = one_field(me, cycle, t, along, ledger, map, &input[used..]);
        along = x.along;
        let n = bytes_of(x.step);
        if n == 0 {
            return Passage {
                along,
                fields,
                used,
                last: x.step,
            };
        }
        fields += 1;
        used += n;
    }
    Passage {
        along,
        fields,
        used,
        last: Ok(Step::Incomplete),
    }
}
