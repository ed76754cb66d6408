// Numbers of the ledger and transfer energies at their bounds, and one beyond: "the ledger's bounds for energy and distance double", and a transfer energy
// within 10^13 is "doubled on reading".
use crate::of_judge::number_of;
use crate::of_state::ended_run;
use crate::{CYCLE, UNKNOWN, reading_with, say, try_field, try_figures};
use reading::Reading;
use rules::{Amounts, Sample};

// One sample more after the limit, on memory of zeros but for this number of the ledger.
fn try_number(rt: HostRuntime, what: &[u8], at: usize, number: i64) {
    let mut ledger = [0i64; 576];
    let mut map = [0u64; 750];
    if 575 < at {
        return;
    }
    ledger[at] = number;
    let x = Sample {
        speed: 100,
        voltage: 6000,
        current: -120,
    };
    let run = ended_run(2561);
    let answer = judge::sample(run, &CYCLE, &mut ledger, &mut map, x);
    say(rt, what, number_of(answer));
}

// The last energy, the last distance and the last outside count of the ledger.
pub fn ledgers(rt: HostRuntime) {
    let most = 14_400_000_000_000;
    let beyond = 14_400_000_000_001;
    try_number(rt, b"ledger, an energy of 14400000000000", 570, most);
    try_number(rt, b"ledger, an energy of 14400000000001", 570, beyond);
    try_number(rt, b"ledger, an energy of -14400000000000", 570, -most);
    try_number(rt, b"ledger, an energy of -14400000000001", 570, -beyond);
    try_number(rt, b"ledger, a distance of 144000000", 574, 144_000_000);
    try_number(rt, b"ledger, a distance of 144000001", 574, 144_000_001);
    try_number(rt, b"ledger, a distance of -1", 574, -1);
    try_number(rt, b"ledger, an outside count of 48000", 575, 48_000);
    try_number(rt, b"ledger, an outside count of 48001", 575, 48_001);
    try_number(rt, b"ledger, an outside count of -1", 575, -1);
}

// A reading of 64 finished cycles with these transfer energies.
fn reading_holding(before: i64, after: i64) -> Reading {
    let r = reading_with(2561, 0);
    let vehicle = r.vehicle;
    let run = r.run;
    Reading {
        vehicle,
        place: 4,
        passed: 0,
        amounts: Amounts {
            before,
            after,
            charge: None,
        },
        run,
    }
}

// In the run's unit, twice field 6's.
pub fn amounts(rt: HostRuntime) {
    let most = 20_000_000_000_000;
    let beyond = 20_000_000_000_001;
    let unknown = &UNKNOWN;
    let cycle = &CYCLE;
    let full = reading_holding(most, -most);
    let turned = reading_holding(-most, most);
    let before = reading_holding(beyond, 0);
    let below = reading_holding(-beyond, 0);
    let after = reading_holding(0, beyond);
    let under = reading_holding(0, -beyond);
    try_field(
        rt,
        b"read, transfer energies at 2 x 10^13 and -2 x 10^13",
        full,
        unknown,
    );
    try_field(
        rt,
        b"read, transfer energies at -2 x 10^13 and 2 x 10^13",
        turned,
        unknown,
    );
    try_field(rt, b"read, 20000000000001 before", before, unknown);
    try_field(rt, b"read, -20000000000001 before", below, unknown);
    try_field(rt, b"read, 20000000000001 after", after, unknown);
    try_field(rt, b"read, -20000000000001 after", under, unknown);
    try_figures(
        rt,
        b"figures, transfer energies at 2 x 10^13 and -2 x 10^13",
        full,
        cycle,
    );
    try_figures(rt, b"figures, 20000000000001 before", before, cycle);
    try_figures(rt, b"figures, -20000000000001 after", under, cycle);
}
