// The closing of shortened runs, with the energies of M and E at their limits: "the closing E takes in all stretches", and 10 "also when fewer than four cycles
// were finished".
use crate::runs::shortened;
use crate::{CYCLE, amounts, fill, say_all};
use rules::Amounts;

// 300,000,000 for each of 4,000,000 intervals.
const MOST: i64 = 1_200_000_000_000_000;

const BEYOND: i64 = MOST + 1;

// The figures of four cycles, with these energies in M and E, these transfer energies, and this recharge.
fn say_four(rt: HostRuntime, label: &[u8], in_m: i64, in_e: i64, amounts: Amounts, ledger: &[i64]) {
    let run = shortened(172, in_m, in_e);
    say_all(rt, label, run, amounts, &CYCLE, ledger);
}

// On a ledger at its largest: each q is 10,000,000. What it has beyond four cycles is in E too, though no shortened run leaves it.
fn large(rt: HostRuntime, ledger: &[i64]) {
    let transfer = 20_000_000_000_000;
    let most = amounts(transfer, -transfer, 2_000_000);
    let after = amounts(transfer, transfer, 1);
    say_four(
        rt,
        b"shortened, largest ledger and stretches, quotient past 64 bits",
        MOST,
        MOST,
        most,
        ledger,
    );
    say_four(
        rt,
        b"shortened, largest ledger and stretches, transfer after",
        MOST,
        MOST,
        after,
        ledger,
    );
    say_four(
        rt,
        b"shortened, largest ledger, least stretches",
        -MOST,
        -MOST,
        most,
        ledger,
    );
    say_four(
        rt,
        b"shortened, largest M, least E",
        MOST,
        -MOST,
        most,
        ledger,
    );
    say_four(
        rt,
        b"shortened, least M, largest E",
        -MOST,
        MOST,
        most,
        ledger,
    );
}

// Past the limits of the state.
fn beyond(rt: HostRuntime, ledger: &[i64]) {
    let one = amounts(0, 0, 1);
    say_four(rt, b"shortened, M past its limit", BEYOND, 0, one, ledger);
    say_four(
        rt,
        b"shortened, M past its limit below 0",
        -BEYOND,
        0,
        one,
        ledger,
    );
    say_four(rt, b"shortened, E past its limit", 0, BEYOND, one, ledger);
    say_four(
        rt,
        b"shortened, E past its limit below 0",
        0,
        -BEYOND,
        one,
        ledger,
    );
}

// The figures of three cycles, with 12 in M.
fn say_three(rt: HostRuntime, label: &[u8], ledger: &[i64]) {
    let run = shortened(131, 12, 0);
    say_all(rt, label, run, amounts(0, 0, 1), &CYCLE, ledger);
}

// Every q is 1: E = 4 + 12 = 16 makes a metre, 14 none.
fn small(rt: HostRuntime, ledger: &[i64]) {
    let one = amounts(0, 0, 1);
    let twelve = amounts(12, 0, 1);
    say_three(rt, b"shortened, three cycles", ledger);
    say_four(rt, b"shortened, four cycles, 12 in M", 12, 0, one, ledger);
    say_four(rt, b"shortened, four cycles, 12 in E", 0, 12, one, ledger);
    say_four(
        rt,
        b"shortened, four cycles, 12 before",
        0,
        0,
        twelve,
        ledger,
    );
    say_four(rt, b"shortened, a range of 0", 4, 6, one, ledger);
    say_four(
        rt,
        b"shortened, largest M, least E, 12 before",
        MOST,
        -MOST,
        twelve,
        ledger,
    );
}

// The greatest range, and what M and E take away from it.
fn whole(rt: HostRuntime, ledger: &[i64]) {
    let one = amounts(0, 0, 1);
    say_four(
        rt,
        b"shortened, largest stretches, q at 1",
        MOST,
        MOST,
        one,
        ledger,
    );
    say_four(
        rt,
        b"shortened, least stretches, q at 1",
        -MOST,
        -MOST,
        one,
        ledger,
    );
    say_four(rt, b"shortened, E = e_1 + e_2 by M", -2, 0, one, ledger);
    say_four(rt, b"shortened, E below e_1 + e_2 by M", -3, 0, one, ledger);
    say_four(rt, b"shortened, E = e_1 + e_2 by E", 0, -2, one, ledger);
    say_four(rt, b"shortened, E below e_1 + e_2 by E", 0, -3, one, ledger);
}

// Four cycles with energies of 1 in one phase and distances of 100; then no energy in the fourth, and below 0 in the third.
fn by_cycles(rt: HostRuntime) {
    let mut ledger = [0i64; 576];
    ledger[0] = 1;
    ledger[9] = 1;
    ledger[18] = 1;
    ledger[27] = 1;
    ledger[4] = 100;
    ledger[13] = 100;
    ledger[22] = 100;
    ledger[31] = 100;
    small(rt, &ledger);
    whole(rt, &ledger);
    ledger[27] = 0;
    let one = amounts(0, 0, 1);
    say_three(
        rt,
        b"shortened, three cycles, no energy in the fourth",
        &ledger,
    );
    say_four(
        rt,
        b"shortened, four cycles, no energy in the fourth",
        12,
        0,
        one,
        &ledger,
    );
    ledger[18] = -1;
    say_three(
        rt,
        b"shortened, three cycles, energy below 0 in the third",
        &ledger,
    );
}

pub fn closings(rt: HostRuntime) {
    let mut ledger = [0i64; 576];
    fill(&mut ledger, 14_400_000_000_000, 144_000_000);
    large(rt, &ledger);
    beyond(rt, &ledger);
    by_cycles(rt);
}
