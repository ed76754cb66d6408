// Sums over the ledger's numbers, where they are in bounds.
ghost use Rattle.std.specs.Prelude.{◌≡◌, true, ◌≤◌, ◌<◌};
ghost use Rattle.rules.specs.Bench.{most_cycles};
ghost use Rattle.ledger.specs.Row.{bounded, sum_by, Within, energy_in, distance_in, energy_from, energy_all, outside_all};

use rules::limits::{MOST_CYCLES, MOST_PHASES};

// The sum of n numbers, the first at place a, each d places behind the one before.
fn sum_by(ledger: &[i64], a: usize, d: usize, n: usize) -> i64
    requires { (bounded ledger.now ≡ true) × (n ≤ most_cycles) × Within a d n }
    ensures { result ≡ sum_by ledger.now a d n }
{
    let mut sum: i64 = 0;
    for k in 0..n {
        sum += ledger[a + d * k];
    }
    sum
}

// The energy of cycle c.
// Stays: this and the next are one line each over `sum_by`, and each has its row and its theorem in docs/PROMISES.md.
pub fn energy_in(ledger: &[i64], c: usize) -> i64
    requires { (bounded ledger.now ≡ true) × (c < most_cycles) }
    ensures { result ≡ energy_in ledger.now c }
{
    sum_by(ledger, 9 * c, 1, MOST_PHASES)
}

// The distance of cycle c.
pub fn distance_in(ledger: &[i64], c: usize) -> i64
    requires { (bounded ledger.now ≡ true) × (c < most_cycles) }
    ensures { result ≡ distance_in ledger.now c }
{
    sum_by(ledger, 9 * c + 4, 1, MOST_PHASES)
}

// The energy of the cycles from a on.
pub fn energy_from(ledger: &[i64], a: usize) -> i64
    requires { (bounded ledger.now ≡ true) × (a ≤ most_cycles) }
    ensures { result ≡ energy_from ledger.now a }
{
    let mut sum: i64 = 0;
    for c in a..MOST_CYCLES {
        sum += energy_in(ledger, c);
    }
    sum
}

// The energy of all cycles.
pub fn energy_all(ledger: &[i64]) -> i64
    requires { bounded ledger.now ≡ true }
    ensures { result ≡ energy_all ledger.now }
{
    energy_from(ledger, 0)
}

// The outside count of all cycles.
pub fn outside_all(ledger: &[i64]) -> i64
    requires { bounded ledger.now ≡ true }
    ensures { result ≡ outside_all ledger.now }
{
    sum_by(ledger, 8, 9, MOST_CYCLES)
}
