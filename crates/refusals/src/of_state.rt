// What a started run's state is refused 1 for: the samples offered and counted as the end has them, and what is held of the open interval. Beside each
// stands what is taken.
use crate::of_judge::number_of;
use crate::{CYCLE, say};
use rules::{End, Method, Moment, Sample, Tolerances};
use state::{Ends, Progress, Run, Stretch, Stretched, Track};

// Nothing of M and E.
pub fn no_stretches() -> Stretched {
    Stretched {
        in_m: Stretch {
            energy: 0,
            distance: 0,
        },
        in_e: Stretch {
            energy: 0,
            distance: 0,
        },
        watch: 0,
    }
}

// T = 2, so that a cycle has 40 positions, and 64 cycles 2560.
pub fn run_by(method: Method, progress: Progress, stretched: Stretched) -> Run {
    Run {
        track: Track {
            seconds: 2,
            ends: Ends {
                first: 2,
                second: 0,
                third: 0,
                fourth: 0,
            },
            tolerances: Tolerances {
                speed: 30,
                time: 20,
                allowance: 300,
            },
            method,
        },
        progress,
        stretched,
    }
}

// By the regular method.
fn run_with(progress: Progress) -> Run {
    run_by(Method::Regular, progress, no_stretches())
}

pub fn progress_of(offered: u32, counted: u32, end: End, speed: u64, energy: i64) -> Progress {
    Progress {
        offered,
        counted,
        end,
        held: Moment { speed, energy },
    }
}

// A run of 64 finished cycles to which so many samples were offered: the sample after cycle 64 is among them.
pub fn ended_run(offered: u32) -> Run {
    run_with(progress_of(offered, 2560, End::Limit, 0, 0))
}

// A run to which no sample was offered.
pub fn fresh_run() -> Run {
    run_with(progress_of(0, 0, End::None, 0, 0))
}

// One sample more, on memory of zeros.
pub fn try_run(rt: HostRuntime, what: &[u8], run: Run) {
    let mut ledger = [0i64; 576];
    let mut map = [0u64; 750];
    let x = Sample {
        speed: 100,
        voltage: 6000,
        current: -120,
    };
    let answer = judge::sample(run, &CYCLE, &mut ledger, &mut map, x);
    say(rt, what, number_of(answer));
}

fn try_state(rt: HostRuntime, what: &[u8], progress: Progress) {
    try_run(rt, what, run_with(progress));
}

// Of one sample, which counts.
fn try_held(rt: HostRuntime, what: &[u8], speed: u64, energy: i64) {
    try_state(rt, what, progress_of(1, 1, End::None, speed, energy));
}

// Of no sample.
fn try_blank(rt: HostRuntime, what: &[u8], speed: u64, energy: i64) {
    try_state(rt, what, progress_of(0, 0, End::None, speed, energy));
}

// Of a run that sample 3 has stopped.
fn try_stopped(rt: HostRuntime, what: &[u8], speed: u64, energy: i64) {
    try_state(rt, what, progress_of(4, 3, End::Stop, speed, energy));
}

// Of a run at its limit.
fn try_ended(rt: HostRuntime, what: &[u8], speed: u64, energy: i64) {
    try_state(rt, what, progress_of(2561, 2560, End::Limit, speed, energy));
}

// The last counted sample's speed and product; nothing where no interval is open: before the first sample, after a stop, after the limit.
pub fn intervals(rt: HostRuntime) {
    try_held(rt, b"state, a speed of 1500 held", 1500, 0);
    try_held(rt, b"state, a speed of 1501 held", 1501, 0);
    try_held(rt, b"state, an energy of 150000000 held", 0, 150_000_000);
    try_held(rt, b"state, an energy of 150000001 held", 0, 150_000_001);
    try_held(rt, b"state, an energy of -150000000 held", 0, -150_000_000);
    try_held(rt, b"state, an energy of -150000001 held", 0, -150_000_001);
    try_blank(rt, b"state, no sample, nothing held", 0, 0);
    try_blank(rt, b"state, no sample, a speed held", 1, 0);
    try_blank(rt, b"state, no sample, an energy held", 0, 1);
    try_stopped(rt, b"state, stopped, nothing held", 0, 0);
    try_stopped(rt, b"state, stopped, a speed held", 1, 0);
    try_stopped(rt, b"state, stopped, an energy held", 0, -1);
    try_ended(rt, b"state, at the limit, nothing held", 0, 0);
    try_ended(rt, b"state, at the limit, a speed held", 1, 0);
    try_ended(rt, b"state, at the limit, an energy held", 0, 1);
}

fn try_counts(rt: HostRuntime, what: &[u8], offered: u32, counted: u32, end: End) {
    try_state(rt, what, progress_of(offered, counted, end, 0, 0));
}

// "the limit reached, only once the sample after its last position is taken": till then 2560 count and the run goes on.
pub fn counts(rt: HostRuntime) {
    let goes_on = End::None;
    let stopped = End::Stop;
    let limit = End::Limit;
    try_counts(
        rt,
        b"state, no end, 2560 counted of 2560",
        2560,
        2560,
        goes_on,
    );
    try_counts(
        rt,
        b"state, no end, 2561 counted of 2561",
        2561,
        2561,
        goes_on,
    );
    try_counts(rt, b"state, no end, 1 counted of 2", 2, 1, goes_on);
    try_counts(
        rt,
        b"state, a stop, 2559 counted of 2560",
        2560,
        2559,
        stopped,
    );
    try_counts(
        rt,
        b"state, a stop, 2560 counted of 2561",
        2561,
        2560,
        stopped,
    );
    try_counts(rt, b"state, a stop, 3 counted of 3", 3, 3, stopped);
    try_counts(
        rt,
        b"state, the limit, 2560 counted of 2561",
        2561,
        2560,
        limit,
    );
    try_counts(
        rt,
        b"state, the limit, 2560 counted of 2560",
        2560,
        2560,
        limit,
    );
    try_counts(
        rt,
        b"state, the limit, 2559 counted of 2561",
        2561,
        2559,
        limit,
    );
}
