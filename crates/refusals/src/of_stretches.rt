// What is refused for the stretches of a shortened run: 19 where it starts, 1 of a started run's state. Beside each stands what is taken.
use crate::of_judge::{BROKEN, number_of, tolerances};
use crate::of_state::{no_stretches, progress_of, run_by, try_run};
use crate::{CYCLE, say};
use rules::{End, Method, Stretches};
use state::{Progress, Stretch, Stretched};

// M of so many samples, and the set speed of E.
fn shortened(length: u32, speed: u32) -> Method {
    Method::Shortened(Stretches { length, speed })
}

fn try_start(rt: HostRuntime, what: &[u8], cycle: &[u8], speed: u32, method: Method) {
    let mut ledger = [0i64; 576];
    let mut map = [0u64; 750];
    let t = tolerances(speed);
    let answer = judge::start(cycle, t, method, &mut ledger, &mut map);
    say(rt, what, number_of(answer));
}

// With all else in order.
fn try_method(rt: HostRuntime, what: &[u8], method: Method) {
    try_start(rt, what, &CYCLE, 30, method);
}

// 2, 3 and 19: "M's length in samples, 1..4,000,000", "E's set speed, 1..1500".
pub fn starts(rt: HostRuntime) {
    let none = shortened(0, 140);
    let broken = &BROKEN;
    try_start(rt, b"start, a broken end, M of 0 samples", broken, 30, none);
    try_start(
        rt,
        b"start, a tolerance of 101, M of 0 samples",
        &CYCLE,
        101,
        none,
    );
    try_method(rt, b"start, M of 0 samples", none);
    try_method(rt, b"start, M of 1 sample", shortened(1, 140));
    try_method(
        rt,
        b"start, M of 4000000 samples",
        shortened(4_000_000, 140),
    );
    try_method(
        rt,
        b"start, M of 4000001 samples",
        shortened(4_000_001, 140),
    );
    try_method(rt, b"start, a set speed of 0", shortened(10, 0));
    try_method(rt, b"start, a set speed of 1", shortened(10, 1));
    try_method(rt, b"start, a set speed of 1500", shortened(10, 1500));
    try_method(rt, b"start, a set speed of 1501", shortened(10, 1501));
}

// A run of this method, of which no sample was offered.
fn try_blank(rt: HostRuntime, what: &[u8], method: Method) {
    let progress = progress_of(0, 0, End::None, 0, 0);
    try_run(rt, what, run_by(method, progress, no_stretches()));
}

// The method is part of the state.
pub fn methods(rt: HostRuntime) {
    try_blank(rt, b"state, M of 0 samples", shortened(0, 140));
    try_blank(rt, b"state, M of 1 sample", shortened(1, 140));
    try_blank(
        rt,
        b"state, M of 4000000 samples",
        shortened(4_000_000, 140),
    );
    try_blank(
        rt,
        b"state, M of 4000001 samples",
        shortened(4_000_001, 140),
    );
    try_blank(rt, b"state, a set speed of 0", shortened(10, 0));
    try_blank(rt, b"state, a set speed of 1", shortened(10, 1));
    try_blank(rt, b"state, a set speed of 1500", shortened(10, 1500));
    try_blank(rt, b"state, a set speed of 1501", shortened(10, 1501));
}

// M of 10 samples: samples 80 to 89 stand in it, and from sample 170 on in E.
fn try_shortened(rt: HostRuntime, what: &[u8], progress: Progress, stretched: Stretched) {
    try_run(rt, what, run_by(shortened(10, 140), progress, stretched));
}

fn try_counts(rt: HostRuntime, what: &[u8], offered: u32, counted: u32, end: End) {
    try_shortened(
        rt,
        what,
        progress_of(offered, counted, end, 0, 0),
        no_stretches(),
    );
}

// There is no end by limit: as many samples count as may be offered, and one more is 7.
pub fn counts(rt: HostRuntime) {
    let on = End::None;
    let stop = End::Stop;
    let limit = End::Limit;
    let most = 4_000_000;
    let past = 4_000_001;
    try_counts(
        rt,
        b"shortened, no end, 2561 counted of 2561",
        2561,
        2561,
        on,
    );
    try_counts(rt, b"shortened, no end, 1 counted of 2", 2, 1, on);
    try_counts(rt, b"shortened, no end, 4000000 counted", most, most, on);
    try_counts(rt, b"shortened, no end, 4000001 counted", past, past, on);
    try_counts(
        rt,
        b"shortened, a stop, 2560 counted of 2561",
        2561,
        2560,
        stop,
    );
    try_counts(
        rt,
        b"shortened, a stop, 2561 counted of 2561",
        2561,
        2561,
        stop,
    );
    try_counts(
        rt,
        b"shortened, a stop, 3999999 counted",
        most,
        most - 1,
        stop,
    );
    try_counts(rt, b"shortened, a stop, 4000000 counted", most, most, stop);
    try_counts(rt, b"shortened, the limit, 2560 counted", 2561, 2560, limit);
    try_counts(
        rt,
        b"shortened, the limit, 4000000 counted",
        most,
        most,
        limit,
    );
}

// Energy and distance of M, those of E, and the watch.
fn five(in_m: i64, of_m: u64, in_e: i64, of_e: u64, watch: u64) -> Stretched {
    Stretched {
        in_m: Stretch {
            energy: in_m,
            distance: of_m,
        },
        in_e: Stretch {
            energy: in_e,
            distance: of_e,
        },
        watch,
    }
}

fn try_regular(rt: HostRuntime, what: &[u8], stretched: Stretched) {
    let progress = progress_of(200, 200, End::None, 100, 720_000);
    try_run(rt, what, run_by(Method::Regular, progress, stretched));
}

// The regular method has no stretches.
pub fn in_regular(rt: HostRuntime) {
    try_regular(rt, b"regular, nothing in M and E", five(0, 0, 0, 0, 0));
    try_regular(rt, b"regular, an energy in M", five(1, 0, 0, 0, 0));
    try_regular(rt, b"regular, an energy below 0 in M", five(-1, 0, 0, 0, 0));
    try_regular(rt, b"regular, a distance in M", five(0, 1, 0, 0, 0));
    try_regular(rt, b"regular, an energy in E", five(0, 0, 1, 0, 0));
    try_regular(rt, b"regular, an energy below 0 in E", five(0, 0, -1, 0, 0));
    try_regular(rt, b"regular, a distance in E", five(0, 0, 0, 1, 0));
    try_regular(rt, b"regular, a watch of 1", five(0, 0, 0, 0, 1));
}

// Of so many samples, which all count.
fn try_open(rt: HostRuntime, what: &[u8], counted: u32, stretched: Stretched) {
    let progress = progress_of(counted, counted, End::None, 100, 720_000);
    try_shortened(rt, what, progress, stretched);
}

fn try_m(rt: HostRuntime, what: &[u8], counted: u32, energy: i64, distance: u64) {
    try_open(rt, what, counted, five(energy, distance, 0, 0, 0));
}

fn try_e(rt: HostRuntime, what: &[u8], counted: u32, energy: i64, distance: u64) {
    try_open(rt, what, counted, five(1, 1, energy, distance, 0));
}

fn try_watch(rt: HostRuntime, what: &[u8], counted: u32, watch: u64) {
    try_open(rt, what, counted, five(1, 1, 0, 0, watch));
}

const MOST: i64 = 1_200_000_000_000_000;

const FAR: u64 = 12_000_000_000;

// Sample 80 is M's first, and sample 81 closes its interval: 82 samples.
pub fn in_m(rt: HostRuntime) {
    try_m(rt, b"M, an energy of 1200000000000000", 82, MOST, 0);
    try_m(rt, b"M, an energy of 1200000000000001", 82, MOST + 1, 0);
    try_m(rt, b"M, an energy of -1200000000000000", 82, -MOST, 0);
    try_m(rt, b"M, an energy of -1200000000000001", 82, -MOST - 1, 0);
    try_m(rt, b"M, a distance of 12000000000", 82, 0, FAR);
    try_m(rt, b"M, a distance of 12000000001", 82, 0, FAR + 1);
    try_m(rt, b"M, no interval closed, nothing", 81, 0, 0);
    try_m(rt, b"M, no interval closed, an energy", 81, 1, 0);
    try_m(rt, b"M, no interval closed, an energy below 0", 81, -1, 0);
    try_m(rt, b"M, no interval closed, a distance", 81, 0, 1);
    try_e(rt, b"M, one interval closed, an energy in E", 82, 1, 0);
}

// Sample 170 is E's first, and sample 171 closes its interval: 172 samples.
pub fn in_e(rt: HostRuntime) {
    try_e(rt, b"E, an energy of 1200000000000000", 172, MOST, 0);
    try_e(rt, b"E, an energy of 1200000000000001", 172, MOST + 1, 0);
    try_e(rt, b"E, an energy of -1200000000000000", 172, -MOST, 0);
    try_e(rt, b"E, an energy of -1200000000000001", 172, -MOST - 1, 0);
    try_e(rt, b"E, a distance of 12000000000", 172, 0, FAR);
    try_e(rt, b"E, a distance of 12000000001", 172, 0, FAR + 1);
    try_e(rt, b"E, no interval closed, nothing", 171, 0, 0);
    try_e(rt, b"E, no interval closed, an energy", 171, 1, 0);
    try_e(rt, b"E, no interval closed, an energy below 0", 171, -1, 0);
    try_e(rt, b"E, no interval closed, a distance", 171, 0, 1);
}

// 79 samples below in a row make a watch of 80; the 80th stops the run and is not counted.
pub fn watches(rt: HostRuntime) {
    let stopped = progress_of(252, 251, End::Stop, 0, 0);
    try_watch(rt, b"E, no sample counted, a watch of 0", 170, 0);
    try_watch(rt, b"E, no sample counted, a watch of 1", 170, 1);
    try_watch(rt, b"E, a sample counted, a watch of 1", 171, 1);
    try_watch(rt, b"E, a watch of 80", 251, 80);
    try_watch(rt, b"E, a watch of 81", 251, 81);
    let most = five(1, 1, 1, 1, 80);
    let beyond = five(1, 1, 1, 1, 81);
    try_shortened(rt, b"E, stopped, a watch of 80", stopped, most);
    try_shortened(rt, b"E, stopped, a watch of 81", stopped, beyond);
}
