// What is printed of the judge's answers.
use judge::{Counts, Sums};
use rules::{End, Refusal};
use state::{Stretch, Stretched};

fn lost(rt: HostRuntime) {
    edges::tell(rt, b"played: the output was lost\n");
}

pub fn text(rt: HostRuntime, text: &[u8]) {
    if !edges::say(rt, text) {
        lost(rt);
    }
}

pub fn named(rt: HostRuntime, name: &[u8], n: u64) {
    text(rt, name);
    if !edges::say_number(rt, n) {
        lost(rt);
    }
}

// No figure of these runs is below 0.
fn signed(rt: HostRuntime, name: &[u8], n: i64) {
    if n < 0 {
        text(rt, name);
        text(rt, b"below 0");
        return;
    }
    named(rt, name, n as u64);
}

fn end_number(end: End) -> u64 {
    match end {
        End::None => 0,
        End::Stop => 1,
        End::Limit => 2,
    }
}

pub fn totals(rt: HostRuntime, answer: Result<Sums, Refusal>) {
    match answer {
        Ok(s) => {
            named(rt, b": end ", end_number(s.end));
            named(rt, b", counted ", s.counted as u64);
            named(rt, b", cycles ", s.cycles as u64);
            signed(rt, b", outside ", s.outside);
            signed(rt, b", drawn ", s.drawn);
        }
        Err(refusal) => named(rt, b": refused ", u64::from(refusal.number())),
    }
}

pub fn shown(rt: HostRuntime, answer: Result<Counts, Refusal>) {
    match answer {
        Ok(c) => {
            named(rt, b", ones ", c.ones);
            signed(rt, b", outside ", c.outside);
            named(rt, b", agree ", c.agree as u64);
        }
        Err(refusal) => named(rt, b", refused ", u64::from(refusal.number())),
    }
}

pub fn position(rt: HostRuntime, map: &[u64], p: usize) {
    named(rt, b", position ", p as u64);
    named(rt, b" set ", map::is_set(map, p) as u64);
}

// Number k of a row of the ledger.
fn number_of(ledger: &[i64], row: usize, k: usize) -> i64 {
    if 63 < row {
        return 0;
    }
    if 8 < k {
        return 0;
    }
    let i = 9 * row + k;
    if ledger.len() <= i {
        return 0;
    }
    ledger[i]
}

// "four phase energies, four phase distances, the outside count".
pub fn row(rt: HostRuntime, ledger: &[i64], at: usize) {
    named(rt, b", row ", at as u64);
    signed(rt, b" energies ", number_of(ledger, at, 0));
    signed(rt, b" ", number_of(ledger, at, 1));
    signed(rt, b" ", number_of(ledger, at, 2));
    signed(rt, b" ", number_of(ledger, at, 3));
    signed(rt, b" distances ", number_of(ledger, at, 4));
    signed(rt, b" ", number_of(ledger, at, 5));
    signed(rt, b" ", number_of(ledger, at, 6));
    signed(rt, b" ", number_of(ledger, at, 7));
    signed(rt, b" outside ", number_of(ledger, at, 8));
}

fn stretch(rt: HostRuntime, name: &[u8], x: Stretch) {
    text(rt, name);
    signed(rt, b" energy ", x.energy);
    named(rt, b" distance ", x.distance);
}

// What a run has of M and E, and how many samples are below in a row.
pub fn stretched(rt: HostRuntime, z: Stretched) {
    stretch(rt, b", M", z.in_m);
    stretch(rt, b", E", z.in_e);
    named(rt, b", watch ", z.watch);
}
