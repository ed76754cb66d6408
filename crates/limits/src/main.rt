// The closing figures at their limits, worked out in `stdout` from the formulas of documents 01 and 02.
#![tactic(auto)]

mod runs;
mod stretched;

use rules::{Amounts, Closing};
use runs::finished;
use state::Run;

// T = 2, one phase, points of 100.
const CYCLE: [u8; 9] = [1, 0, 2, 0, 100, 0, 100, 0, 100];

fn lost(rt: HostRuntime) {
    edges::tell(rt, b"limits: the output was lost\n");
}

fn say(rt: HostRuntime, text: &[u8]) {
    if !edges::say(rt, text) {
        lost(rt);
    }
}

fn say_number(rt: HostRuntime, n: u64) {
    if !edges::say_number(rt, n) {
        lost(rt);
    }
}

fn say_refused(rt: HostRuntime, n: u32) {
    say(rt, b"refused ");
    say_number(rt, n as u64);
}

fn say_figure(rt: HostRuntime, figure: Result<Option<u64>, u32>) {
    match figure {
        Ok(Some(n)) => say_number(rt, n),
        Ok(None) => say(rt, b"-"),
        Err(n) => say_refused(rt, n),
    }
}

// The three figures of one closing, or the refusal in place of all.
fn say_closing(rt: HostRuntime, answer: Result<Closing, u32>) {
    match answer {
        Err(n) => say_refused(rt, n),
        Ok(x) => {
            say_number(rt, x.weighted);
            say(rt, b", ");
            say_number(rt, x.range);
            say(rt, b", ");
            say_figure(rt, x.recharge);
        }
    }
}

// What stands at place i of a ledger in which every energy and every distance is the same.
fn number_at(i: usize, energy: i64, distance: i64) -> i64 {
    let a = i % 9;
    if a < 4 {
        return energy;
    }
    if a < 8 {
        return distance;
    }
    0
}

fn fill(ledger: &mut [i64], energy: i64, distance: i64) {
    for (i, number) in ledger.iter_mut().enumerate() {
        *number = number_at(i, energy, distance);
    }
}

fn say_all(
    rt: HostRuntime,
    label: &[u8],
    run: Run,
    amounts: Amounts,
    cycle: &[u8],
    ledger: &[i64],
) {
    let map = [0u64; 750];
    say(rt, label);
    say(rt, b": ");
    say_closing(rt, closing::close(run, amounts, cycle, ledger, &map));
    say(rt, b"\n");
}

fn amounts(before: i64, after: i64, wh: u32) -> Amounts {
    let charge = if wh == 0 { None } else { Some(wh) };
    Amounts {
        before,
        after,
        charge,
    }
}

// The figures of n cycles.
fn say_case(
    rt: HostRuntime,
    label: &[u8],
    n: u32,
    before: i64,
    after: i64,
    wh: u32,
    ledger: &[i64],
) {
    say_all(
        rt,
        label,
        finished(n),
        amounts(before, after, wh),
        &CYCLE,
        ledger,
    );
}

// A ledger at its largest, and one number beyond.
fn large(rt: HostRuntime) {
    let mut ledger = [0i64; 576];
    fill(&mut ledger, 14_400_000_000_000, 144_000_000);
    let most = 20_000_000_000_000;
    say_case(
        rt,
        b"largest ledger, quotient past 64 bits",
        64,
        most,
        -most,
        2_000_000,
        &ledger,
    );
    say_case(
        rt,
        b"largest ledger, transfer after",
        64,
        most,
        most,
        1,
        &ledger,
    );
    ledger[0] = 14_400_000_000_001;
    say_case(
        rt,
        b"a number of the ledger out of bounds",
        64,
        0,
        0,
        1,
        &ledger,
    );
}

// Every q is 1, so W is 1, and the range a metre for every 14.4 of E. No figure goes with E + F = 1: E is above 10 times the range.
fn by_amounts(rt: HostRuntime, ledger: &[i64]) {
    say_case(rt, b"q at 1, E + F = 2", 3, 12, -13, 1, ledger);
    say_case(rt, b"recharge figure at its limit", 3, 17, -18, 1, ledger);
    say_case(
        rt,
        b"recharge figure above its limit",
        3,
        12,
        -13,
        2,
        ledger,
    );
    say_case(rt, b"E + F = 1", 3, 12, -14, 1, ledger);
    say_case(rt, b"E + F = 0", 3, 12, -15, 1, ledger);
    say_case(rt, b"E + F = 0, no recharge", 3, 12, -15, 0, ledger);
    say_case(rt, b"a range of 0", 3, 11, 0, 1, ledger);
    say_case(rt, b"E = e_1 + e_2", 3, -1, 0, 1, ledger);
    say_case(rt, b"E below e_1 + e_2", 3, -2, 0, 1, ledger);
    say_case(rt, b"two cycles", 2, 12, 0, 1, ledger);
}

// What comes before the closing's own refusals, and beside it what does not: two cycles are 10.
fn by_grounds(rt: HostRuntime, ledger: &[i64]) {
    let most = 20_000_000_000_000;
    say_case(rt, b"transfer at its limit", 2, most, -most, 1, ledger);
    say_case(
        rt,
        b"transfer past its limit",
        2,
        20_000_000_000_001,
        0,
        1,
        ledger,
    );
    say_case(rt, b"recharge at its limit", 2, 0, 0, 2_000_000, ledger);
    say_case(rt, b"recharge past its limit", 2, 0, 0, 2_000_001, ledger);
    say_all(
        rt,
        b"a cycle of 8 bytes",
        finished(2),
        amounts(0, 0, 1),
        &CYCLE[..8],
        ledger,
    );
}

// Three cycles with energies of 1 in one phase and distances of 100; then other numbers in the third.
fn small(rt: HostRuntime) {
    let mut ledger = [0i64; 576];
    ledger[0] = 1;
    ledger[9] = 1;
    ledger[18] = 1;
    ledger[4] = 100;
    ledger[13] = 100;
    ledger[22] = 100;
    by_amounts(rt, &ledger);
    by_grounds(rt, &ledger);
    ledger[22] = 101;
    say_case(rt, b"q below 1", 3, 12, 0, 1, &ledger);
    ledger[22] = 0;
    say_case(rt, b"no distance", 3, 12, 0, 1, &ledger);
    ledger[18] = 0;
    say_case(rt, b"no energy", 3, 12, 0, 1, &ledger);
    ledger[18] = 100_001;
    ledger[22] = 1;
    say_case(rt, b"q above 10,000,000", 3, 12, 0, 1, &ledger);
    ledger[18] = 100_000;
    say_case(rt, b"q at 10,000,000", 3, 2_000_000_000, 0, 1, &ledger);
}

fn main(rt: HostRuntime) {
    large(rt);
    small(rt);
    stretched::closings(rt);
}
