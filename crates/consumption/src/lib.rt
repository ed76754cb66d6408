// The closing of n finished cycles, exact, by one pass over the ledger.
#![tactic(auto)]

mod gathering;

ghost use Rattle.std.specs.Prelude.{◌≡◌, Some, true, ◌+◌, ◌-◌, ◌*◌, ◌/◌, ◌≤◌, ◌<◌, ◌^◌, pos, ◌+ℤ◌};
ghost use Rattle.std.specs.Int.Signed.{le_z};
ghost use Rattle.rules.specs.Words.{sumℤ, up};
ghost use Rattle.numbers.specs.Whole.{Sized};
ghost use Rattle.rules.specs.Closing.{is_charge, most_rate, most_charge, recharge_by};
ghost use Rattle.values.specs.Limits.{are_amounts};
ghost use Rattle.laws.specs.Answers.{figure_said, closing_said};
ghost use Rattle.laws.specs.Beside.{most_transfer, most_whole};
ghost use Rattle.rules.specs.Bench.{most_cycles};
ghost use Rattle.rules.specs.Shown.{most_stretch_energy};
ghost use Rattle.ledger.specs.Row.{bounded, energy_in, energy_all};
ghost use Rattle.wide.specs.Ratio.{ratio};
ghost use Rattle.consumption.specs.Figures.{closing_on, weighed_by, Weighable, finished_by};

use gathering::gather_cycles;
use ledger::totals::energy_from;
use rules::limits::MOST_RATE;
use rules::{Amounts, Closing};
use wide::Parts;

// A cycle's energy, 0 where it is below 0, and its q, 0 where it has no distance.
#[derive(Clone, Copy)]
pub struct Rated {
    pub energy: u64,
    pub rate: u64,
}

// What the finished cycles gather, two at least: the first two, the q from the third on, the energy, whether each has drawn some, and whether each q
// lies within its limits.
#[derive(Clone, Copy)]
pub struct Gathered {
    pub first: Rated,
    pub second: Rated,
    pub rates: u64,
    pub energy: u64,
    pub drawn: bool,
    pub rated: bool,
}

// E, of the transfer energy before the test, the energy of the n finished cycles, that of the others, and that beside the cycles.
fn whole_energy(ledger: &[i64], n: usize, finished: u64, beside: i64, before: i64) -> i64
    requires ledger_value { (bounded ledger.now ≡ true) × (n ≤ most_cycles) }
    requires finished_value { (pos finished ≡ sumℤ (energy_in ledger.now) n) × Sized most_transfer before × Sized (2 * most_stretch_energy) beside }
    ensures { result ≡ before +ℤ (energy_all ledger.now +ℤ beside) }
{
    before + (finished as i64 + energy_from(ledger, n) + beside)
}

// The three products over one divisor, k the number of cycles after the second.
fn weigh(k: u64, total: u64, e1: u64, e2: u64, q1: u64, q2: u64, s: u64) -> Option<Parts>
    requires { (k ≤ 62) × (total ≤ most_whole) × (e1 + e2 ≤ total) × (q1 ≤ most_rate) × (q2 ≤ most_rate) }
    ensures { result ≡ ratio (k * (q1 * e1 + q2 * e2) + (total - e1 - e2) * s) (total * k) }
{
    let m = total * k;
    let one = wide::muldiv(e1, k * q1, m);
    let two = wide::more(one, e2, k * q2, m);
    wide::more(two, total - e1 - e2, s, m)
}

// W, where no rule is broken.
fn weighted_of(g: Gathered, n: usize, total: u64) -> u64
    requires { Weighable g n total }
    ensures { result ≡ weighed_by g n total }
{
    let k = (n - 2) as u64;
    let one = g.first;
    let two = g.second;
    match weigh(
        k, total, one.energy, two.energy, one.rate, two.rate, g.rates,
    ) {
        Some(w) => w.q,
        None => 0,
    }
}

// E × A × 1,000,000 by the range, then by `both`, which is E + F: of total = a × range + b, b's part first.
fn divided(total: u64, both: u64, wh: u64, range: u64) -> Option<Parts>
    requires { (wh ≤ most_charge) × (1 ≤ range) × (range < 2 ^ 51) }
    ensures { result ≡ ratio (total * wh * 1000000 / range) both }
{
    let y = wh * 1_000_000;
    let t = wide::muldiv(total % range, y, range)?;
    wide::more(wide::whole(t.q, both), total / range, y, both)
}

// The recharge figure, of the whole energy total and the transfer energy after the test: 14, 12, or the figure.
fn recharged(range: u64, total: i64, after: i64, wh: u32) -> Result<Option<u64>, u32>
    requires le_range { (1 ≤ range) × (range < 2 ^ 51) × (le_z (pos 1) total ≡ true) × Sized most_whole total }
    requires sized { Sized most_transfer after × (wh ≤ most_charge) }
    ensures { figure_said result ≡ figure_said (recharge_by total range after (Some wh)) }
{
    let both = total + after;
    if both < 1 {
        return Err(14);
    }
    let r = divided(total as u64, both as u64, wh as u64, range).ok_or(12u32)?;
    if MOST_RATE < r.q {
        return Err(12);
    }
    Ok(Some(r.q))
}

// Absent where there is no recharge.
fn charged(range: u64, total: i64, after: i64, charge: Option<u32>) -> Result<Option<u64>, u32>
    requires le_range { (1 ≤ range) × (range < 2 ^ 51) × (le_z (pos 1) total ≡ true) × Sized most_whole total }
    requires sized { Sized most_transfer after × (is_charge charge ≡ true) }
    ensures { figure_said result ≡ figure_said (recharge_by total range after charge) }
{
    match charge {
        None => Ok(None),
        Some(wh) => recharged(range, total, after, wh),
    }
}

// 13, or the figures together.
fn finish(
    g: Gathered,
    n: usize,
    total: i64,
    after: i64,
    charge: Option<u32>,
) -> Result<Closing, u32>
    requires weighable { Weighable g n (up total) × (le_z (pos 1) total ≡ true) × Sized most_whole total }
    requires sized { Sized most_transfer after × (is_charge charge ≡ true) }
    ensures { closing_said result ≡ finished_by g n total after charge }
{
    let whole = total as u64;
    let weighted = weighted_of(g, n, whole);
    let range = 5 * whole / (72 * weighted);
    if range < 1 {
        return Err(13);
    }
    let recharge = charged(range, total, after, charge);
    Ok(Closing {
        weighted,
        range,
        recharge,
    })
}

// The closing of n finished cycles with these amounts: 10, 11, 12, 13, or the figures together.
pub fn close(
    ledger: &[i64],
    beside: i64,
    asked: usize,
    n: usize,
    a: Amounts,
) -> Result<Closing, u32>
    requires ledger_value { (bounded ledger.now ≡ true) × (n ≤ most_cycles) × (are_amounts a ≡ true) }
    requires sized { Sized (2 * most_stretch_energy) beside × (3 ≤ asked) }
    ensures { closing_said result ≡ closing_said (closing_on ledger.now beside asked n a) }
{
    if n < asked {
        return Err(10);
    }
    let g = gather_cycles(ledger, n);
    if !g.drawn {
        return Err(11);
    }
    let total = whole_energy(ledger, n, g.energy, beside, a.before);
    if total < (g.first.energy + g.second.energy) as i64 {
        return Err(11);
    }
    if !g.rated {
        return Err(12);
    }
    finish(g, n, total, a.after, a.charge)
}
