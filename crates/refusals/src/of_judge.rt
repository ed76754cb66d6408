// What the judge's operations refuse.
use crate::of_state::no_stretches;
use crate::{CYCLE, OTHER_CYCLE, say};
use rules::{End, Method, Moment, Refusal, Sample, Tolerances};
use state::{Ends, Progress, Run, Track};

// T = 2, whose second phase ends where the first does.
pub const BROKEN: [u8; 11] = [2, 0, 2, 0, 2, 0, 100, 0, 100, 0, 100];

// Samples: two (100, 6000, -120), and one with a speed of 1501.
const GOOD: [u8; 12] = [0, 100, 23, 112, 255, 136, 0, 100, 23, 112, 255, 136];

const FAST: [u8; 6] = [5, 221, 23, 112, 255, 136];

pub fn tolerances(speed: u32) -> Tolerances {
    Tolerances {
        speed,
        time: 20,
        allowance: 3,
    }
}

// A run that sample 3 has stopped, with so many samples offered.
fn stopped(offered: u32) -> Run {
    Run {
        track: Track {
            seconds: 2,
            ends: Ends {
                first: 2,
                second: 0,
                third: 0,
                fourth: 0,
            },
            tolerances: tolerances(30),
            method: Method::Regular,
        },
        progress: Progress {
            offered,
            counted: 3,
            end: End::Stop,
            held: Moment {
                speed: 0,
                energy: 0,
            },
        },
        stretched: no_stretches(),
    }
}

// The number of a refusal, 0 where there is an answer.
pub fn number_of<T: Drop>(answer: Result<T, Refusal>) -> u32 {
    match answer {
        Ok(_) => 0,
        Err(refusal) => refusal.number(),
    }
}

fn try_start(
    rt: HostRuntime,
    what: &[u8],
    cycle: &[u8],
    speed: u32,
    ledger: &mut [i64],
    map: &mut [u64],
) {
    let t = tolerances(speed);
    let answer = judge::start(cycle, t, Method::Regular, ledger, map);
    say(rt, what, number_of(answer));
}

// 1, 2 and 3.
pub fn starts(rt: HostRuntime) {
    let broken = &BROKEN;
    let mut ledger = [0i64; 576];
    let mut map = [0u64; 750];
    let mut few = [0i64; 575];
    let mut short = [0u64; 749];
    try_start(
        rt,
        b"start, a ledger of 575, a broken end",
        broken,
        30,
        &mut few,
        &mut map,
    );
    try_start(
        rt,
        b"start, a map of 749, a broken end",
        broken,
        30,
        &mut ledger,
        &mut short,
    );
    try_start(
        rt,
        b"start, a broken end, a tolerance of 101",
        broken,
        101,
        &mut ledger,
        &mut map,
    );
    try_start(
        rt,
        b"start, a tolerance of 101",
        &CYCLE,
        101,
        &mut ledger,
        &mut map,
    );
}

// On memory of zeros, but for the first number of the ledger.
fn try_sample(rt: HostRuntime, what: &[u8], run: Run, cycle: &[u8], speed: u16, number: i64) {
    let mut ledger = [0i64; 576];
    let mut map = [0u64; 750];
    ledger[0] = number;
    let x = Sample {
        speed,
        voltage: 6000,
        current: -120,
    };
    let answer = judge::sample(run, cycle, &mut ledger, &mut map, x);
    say(rt, what, number_of(answer));
}

// 1, 2, 7 and 5.
pub fn samples(rt: HostRuntime) {
    let run = stopped(4);
    let full = stopped(4_000_000);
    let cycle = &CYCLE;
    let other = &OTHER_CYCLE;
    try_sample(
        rt,
        b"sample, a ledger number out of bounds, another cycle",
        run,
        other,
        100,
        14_400_000_000_001,
    );
    try_sample(
        rt,
        b"sample, another cycle, 4000000 offered",
        full,
        other,
        100,
        0,
    );
    try_sample(rt, b"sample, 4000000 offered", full, cycle, 100, 0);
    try_sample(
        rt,
        b"sample, 4000000 offered, a speed of 1501",
        full,
        cycle,
        1501,
        0,
    );
    try_sample(rt, b"sample, a speed of 1501", run, cycle, 1501, 0);
}

fn try_block(rt: HostRuntime, what: &[u8], run: Run, cycle: &[u8], first: u32, samples: &[u8]) {
    let mut ledger = [0i64; 576];
    let mut map = [0u64; 750];
    let answer = judge::block(run, cycle, &mut ledger, &mut map, first, samples);
    say(rt, what, number_of(answer));
}

// 1, 2, 8, 6, 7 and 5.
pub fn blocks(rt: HostRuntime) {
    let run = stopped(4);
    let full = stopped(4_000_000);
    let beyond = stopped(4_000_001);
    let cycle = &CYCLE;
    let other = &OTHER_CYCLE;
    let none = &GOOD[..0];
    let good = &GOOD[..6];
    let fast = &FAST;
    let long = [0u8; 1206];
    try_block(
        rt,
        b"block, a state out of bounds, another cycle",
        beyond,
        other,
        4,
        none,
    );
    try_block(rt, b"block, another cycle, 0 bytes", run, other, 4, none);
    try_block(rt, b"block, 0 bytes", run, cycle, 4, none);
    try_block(rt, b"block, 7 bytes", run, cycle, 4, &GOOD[..7]);
    try_block(rt, b"block, 201 samples", run, cycle, 4, &long[..]);
    try_block(
        rt,
        b"block, 0 bytes, first number wrong",
        run,
        cycle,
        0,
        none,
    );
    try_block(rt, b"block, first number wrong", run, cycle, 0, good);
    try_block(
        rt,
        b"block, first number wrong, 4000000 offered",
        full,
        cycle,
        0,
        good,
    );
    try_block(rt, b"block, 4000000 offered", full, cycle, 4_000_000, good);
    try_block(
        rt,
        b"block, 4000000 offered, a speed of 1501",
        full,
        cycle,
        4_000_000,
        fast,
    );
    try_block(rt, b"block, a speed of 1501", run, cycle, 4, fast);
}

fn try_shown(rt: HostRuntime, what: &[u8], run: Run, ledger: &[i64], map: &[u64]) {
    let answer = judge::shown(run, &OTHER_CYCLE, ledger, map);
    say(rt, what, number_of(answer));
}

fn try_totals(rt: HostRuntime, what: &[u8], run: Run, ledger: &[i64], map: &[u64]) {
    let answer = judge::totals(run, &OTHER_CYCLE, ledger, map);
    say(rt, what, number_of(answer));
}

// 1 and 2.
pub fn figures(rt: HostRuntime) {
    let beyond = stopped(4_000_001);
    let run = stopped(4);
    let numbers = [0i64; 576];
    let words = [0u64; 750];
    let ledger = &numbers[..];
    let map = &words[..];
    try_shown(
        rt,
        b"shown, a state out of bounds, another cycle",
        beyond,
        ledger,
        map,
    );
    try_shown(rt, b"shown, another cycle", run, ledger, map);
    try_totals(
        rt,
        b"totals, a state out of bounds, another cycle",
        beyond,
        ledger,
        map,
    );
    try_totals(rt, b"totals, another cycle", run, ledger, map);
}
