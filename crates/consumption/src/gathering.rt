// One pass over the finished cycles of a ledger.
ghost use Rattle.std.specs.Prelude.{◌≡◌, true, ◌&&◌, ◌+◌, ◌≤◌, ◌<◌};
ghost use Rattle.rules.specs.Closing.{is_rate};
ghost use Rattle.rules.specs.Bench.{most_cycles};
ghost use Rattle.ledger.specs.Row.{bounded};
ghost use Rattle.consumption.specs.Figures.{rated_in, gathered_in};

use crate::{Gathered, Rated};
use ledger::totals::{distance_in, energy_in};
use rules::limits::MOST_RATE;

fn is_rate(q: u64) -> bool
    ensures { result ≡ is_rate q }
{
    1 <= q && q <= MOST_RATE
}

// e_c and q_c.
fn rated_in(ledger: &[i64], c: usize) -> Rated
    requires { (bounded ledger.now ≡ true) × (c < most_cycles) }
    ensures { result ≡ rated_in ledger.now c }
{
    let energy = u64::try_from(energy_in(ledger, c)).unwrap_or(0);
    let distance = u64::try_from(distance_in(ledger, c)).unwrap_or(0);
    if distance == 0 {
        return Rated { energy, rate: 0 };
    }
    Rated {
        energy,
        rate: 100 * energy / distance,
    }
}

// The first two cycles.
fn first_two(ledger: &[i64]) -> Gathered
    requires { bounded ledger.now ≡ true }
    ensures { result ≡ gathered_in ledger.now 2 }
{
    let first = rated_in(ledger, 0);
    let second = rated_in(ledger, 1);
    Gathered {
        first,
        second,
        rates: 0,
        energy: first.energy + second.energy,
        drawn: (1 <= first.energy) & (1 <= second.energy),
        rated: is_rate(first.rate) & is_rate(second.rate),
    }
}

// One cycle more: c are gathered.
fn with_cycle(g: Gathered, ledger: &[i64], c: usize) -> Gathered
    requires { (bounded ledger.now ≡ true) × (2 ≤ c) × (c < most_cycles) × (g ≡ gathered_in ledger.now c) }
    ensures { result ≡ gathered_in ledger.now (c + 1) }
{
    let x = rated_in(ledger, c);
    Gathered {
        first: g.first,
        second: g.second,
        rates: g.rates + x.rate,
        energy: g.energy + x.energy,
        drawn: g.drawn & (1 <= x.energy),
        rated: g.rated & is_rate(x.rate),
    }
}

// Each finished cycle once.
pub fn gather_cycles(ledger: &[i64], n: usize) -> Gathered
    requires { (bounded ledger.now ≡ true) × (2 ≤ n) × (n ≤ most_cycles) }
    ensures { result ≡ gathered_in ledger.now n }
{
    let mut g = first_two(ledger);
    for c in 2..n {
        g = with_cycle(g, ledger, c);
    }
    g
}
