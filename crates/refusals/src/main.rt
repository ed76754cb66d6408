// Refusals that no record brings, each by itself and beside its neighbour in the order of documents 01 and 02: of the reader here, of its place in the order,
// the judge, the desk and the intake, of a run's state, its stretches and of bounds in their modules.
#![tactic(auto)]

mod of_bounds;
mod of_desk;
mod of_intake;
mod of_judge;
mod of_places;
mod of_state;
mod of_stretches;

use of_state::ended_run;
use opening::{OpenStep, Opening};
use reader::{blank, open, read, reading_of};
use reading::{Reading, Step};
use rules::Refusal;
use state::Run;

// T = 2 and T = 3, one phase, points of 100.
const CYCLE: [u8; 9] = [1, 0, 2, 0, 100, 0, 100, 0, 100];

const OTHER_CYCLE: [u8; 11] = [1, 0, 3, 0, 100, 0, 100, 0, 100, 0, 100];

const UNKNOWN: [u8; 1] = [9];
// A field 4 with a speed tolerance of 101.
const WIDE: [u8; 9] = [4, 0, 6, 0, 101, 0, 20, 1, 44];

// The reading of a run, at a place in the order.
fn reading_at(run: Run, place: u32) -> Reading {
    let mut r = reading_of(blank(), run);
    r.place = place;
    r
}

// Behind an own block, of a run of 64 finished cycles to which so many samples were offered, with so many blocks passed over.
fn reading_with(offered: u32, passed: u32) -> Reading {
    let mut r = reading_at(ended_run(offered), 3);
    r.passed = passed;
    r
}

// The number of a refusal; 0 where a field is taken, 100 where it is passed over, 200 where it is not finished.
fn number_of(step: Result<Step, Refusal>) -> u32 {
    match step {
        Ok(Step::Taken(_)) => 0,
        Ok(Step::Passed(_)) => 100,
        Ok(Step::Incomplete) => 200,
        Err(refusal) => refusal.number(),
    }
}

fn open_number_of(step: Result<OpenStep, Refusal>) -> u32 {
    match step {
        Ok(OpenStep::Incomplete) => 200,
        Ok(_) => 0,
        Err(refusal) => refusal.number(),
    }
}

// Stays: limits and played have such functions too: two lines, with the program's own name.
fn lost(rt: HostRuntime) {
    edges::tell(rt, b"refusals: the output was lost\n");
}

fn put(rt: HostRuntime, text: &[u8]) {
    if !edges::say(rt, text) {
        lost(rt);
    }
}

fn say(rt: HostRuntime, what: &[u8], number: u32) {
    put(rt, what);
    put(rt, b": ");
    if !edges::say_number(rt, number as u64) {
        lost(rt);
    }
    put(rt, b"\n");
}

// On a ledger of so many numbers and a map of so many words, all zero.
fn try_read(
    rt: HostRuntime,
    what: &[u8],
    r: Reading,
    input: &[u8],
    cycle: &[u8],
    numbers: usize,
    words: usize,
) {
    let mut ledger = [0i64; 576];
    let mut map = [0u64; 750];
    if 576 < numbers {
        return;
    }
    if 750 < words {
        return;
    }
    let x = read(r, input, cycle, &mut ledger[..numbers], &mut map[..words]);
    say(rt, what, number_of(x.step));
}

// On a room of so many bytes too.
fn try_open(rt: HostRuntime, what: &[u8], o: Opening, input: &[u8], bytes: usize, numbers: usize) {
    let mut room = [0u8; 4811];
    let mut ledger = [0i64; 576];
    let mut map = [0u64; 750];
    if 4811 < bytes {
        return;
    }
    if 576 < numbers {
        return;
    }
    let x = open(
        o,
        input,
        &mut room[..bytes],
        &mut ledger[..numbers],
        &mut map,
    );
    say(rt, what, open_number_of(x.step));
}

// An opening at the tolerances, with so many bytes of a cycle in the room.
fn at_tolerances(fields: u32, cycle: usize) -> Opening {
    let mut o = blank();
    o.fields = fields;
    o.cycle = cycle;
    o
}

fn openings(rt: HostRuntime) {
    let unknown = &UNKNOWN;
    let wide = &WIDE;
    let full = at_tolerances(4, 9);
    let last = at_tolerances(3, 9);
    try_open(
        rt,
        b"open, room too short, unknown tag",
        blank(),
        unknown,
        4810,
        576,
    );
    try_open(rt, b"open, unknown tag", blank(), unknown, 4811, 576);
    try_open(rt, b"open, four fields before it", full, unknown, 4811, 576);
    try_open(
        rt,
        b"start, ledger too short, no cycle, wide",
        last,
        wide,
        4811,
        575,
    );
    try_open(rt, b"start, no cycle, wide", last, wide, 4811, 576);
}

// An unknown tag, with the cycle of another run.
fn try_other(rt: HostRuntime, what: &[u8], r: Reading, numbers: usize, words: usize) {
    try_read(rt, what, r, &UNKNOWN, &OTHER_CYCLE, numbers, words);
}

// With the run's own cycle and memory.
fn try_field(rt: HostRuntime, what: &[u8], r: Reading, input: &[u8]) {
    try_read(rt, what, r, input, &CYCLE, 576, 750);
}

fn grounds(rt: HostRuntime) {
    let r = reading_with(2561, 0);
    let beyond = reading_with(2561, 4_000_001);
    try_other(rt, b"read, ledger too short, other cycle", r, 575, 750);
    try_other(rt, b"read, map too short, other cycle", r, 576, 749);
    try_other(
        rt,
        b"read, state out of bounds, other cycle",
        beyond,
        576,
        750,
    );
    try_other(rt, b"read, other cycle, unknown tag", r, 576, 750);
    try_field(rt, b"read, unknown tag", r, &UNKNOWN);
}

// What `figures_of` tests before it forms the figures.
fn try_figures(rt: HostRuntime, what: &[u8], r: Reading, cycle: &[u8]) {
    let ledger = [0i64; 576];
    let map = [0u64; 750];
    let answer = figures::figures_of(r, cycle, &ledger, &map);
    say(rt, what, of_judge::number_of(answer));
}

fn figures(rt: HostRuntime) {
    let r = reading_with(2561, 0);
    let beyond = reading_with(2561, 4_000_001);
    try_figures(
        rt,
        b"figures, state out of bounds, other cycle",
        beyond,
        &OTHER_CYCLE,
    );
    try_figures(rt, b"figures, other cycle", r, &OTHER_CYCLE);
    try_figures(rt, b"figures, own cycle", r, &CYCLE);
}

// Blocks of one sample: one that begins at sample 4,000,000, one at 0, one with a speed of 1501, another vehicle's.
fn counts(rt: HostRuntime) {
    let full = reading_with(4_000_000, 4_000_000);
    let almost = reading_with(4_000_000, 3_999_999);
    let next = b"\x05\x00\x1b00000000000000000\x00\x3d\x09\x00\x00\x64\x17\x70\xff\x88";
    let again = b"\x05\x00\x1b00000000000000000\x00\x00\x00\x00\x00\x64\x17\x70\xff\x88";
    let fast = b"\x05\x00\x1b00000000000000000\x00\x3d\x09\x00\x05\xdd\x17\x70\xff\x88";
    let foreign = b"\x05\x00\x1b10000000000000000\x00\x00\x00\x00\x05\xdd\x17\x70\xff\x88";
    try_field(rt, b"read, offered full", full, next);
    try_field(rt, b"read, offered full, first number wrong", full, again);
    try_field(rt, b"read, offered full, sample too fast", full, fast);
    try_field(rt, b"read, passed over full", full, foreign);
    try_field(rt, b"read, one more passed over", almost, foreign);
}

fn main(rt: HostRuntime) {
    openings(rt);
    grounds(rt);
    counts(rt);
    of_places::places(rt);
    figures(rt);
    of_judge::starts(rt);
    of_stretches::starts(rt);
    of_judge::samples(rt);
    of_judge::blocks(rt);
    of_judge::figures(rt);
    of_state::intervals(rt);
    of_state::counts(rt);
    of_stretches::methods(rt);
    of_stretches::counts(rt);
    of_stretches::in_regular(rt);
    of_stretches::in_m(rt);
    of_stretches::in_e(rt);
    of_stretches::watches(rt);
    of_bounds::ledgers(rt);
    of_bounds::amounts(rt);
    of_desk::feeds(rt);
    of_desk::early_closings(rt);
    of_desk::closings(rt);
    of_intake::buffers(rt);
}
