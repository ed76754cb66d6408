// The lines behind the cycles, each written from a place on. Each function answers the place after what it wrote.
ghost use Rattle.std.specs.Prelude.{◌≡◌, true, ◌++◌, ◌+◌, ◌-◌, ◌≤◌, ◌<◌, ◌+ℤ◌, length};
ghost use Rattle.numbers.specs.Whole.{Sized};
ghost use Rattle.rules.specs.Words.{up};
ghost use Rattle.rules.specs.Bench.{most_cycles};
ghost use Rattle.rules.specs.Listing.{in_turn};
ghost use Rattle.rules.specs.Trace.{weight_of, sum_text};
ghost use Rattle.laws.specs.Beside.{most_whole};
ghost use Rattle.ledger.specs.Row.{bounded, energy_in};
ghost use Rattle.sheet.specs.Overlaid.{Wrote};
ghost use Rattle.tracing.specs.Traced.{weight_at, figures_on, closing_for};

use ledger::totals::energy_in;
use rules::{Amounts, Closing, Figures};
use sheet::lines::{number_line, recharge_line, refused_line};
use traces::closing::{charge_line, sum_lines, weight_line};

// The energy of cycle c, or 0 where it is below 0.
fn drawn_in(ledger: &[i64], c: usize) -> u64
    requires { (bounded ledger.now ≡ true) × (c < most_cycles) }
    ensures { result ≡ up (energy_in ledger.now c) }
{
    u64::try_from(energy_in(ledger, c)).unwrap_or(0)
}

// NUM of cycle c, of n finished cycles and the whole energy.
fn weight_in(ledger: &[i64], whole: u64, n: usize, c: usize) -> u64
    requires { (bounded ledger.now ≡ true) × (n ≤ most_cycles) × (c < most_cycles) }
    ensures { result ≡ weight_of whole n (λ k. up (energy_in ledger.now k)) c }
{
    if c < 2 {
        return (n as u64).saturating_sub(2) * drawn_in(ledger, c);
    }
    let rest = whole.saturating_sub(drawn_in(ledger, 0));
    rest.saturating_sub(drawn_in(ledger, 1))
}

// "weight C NUM DEN", for each finished cycle.
fn weight_lines(out: &mut [u8], at: usize, ledger: &[i64], whole: u64, n: usize) -> usize
    requires { (at + 4480 ≤ length out.old) × (bounded ledger.now ≡ true) × (whole ≤ most_whole) × (n ≤ most_cycles) }
    ensures { Wrote 4480 out.old at (in_turn (weight_at ledger.now whole n) n) out.new result }
{
    let den = whole * (n as u64).saturating_sub(2);
    let mut next = at;
    for c in 0..n {
        let num = weight_in(ledger, whole, n, c);
        next = weight_line(out, next, c as u64, num, den);
    }
    next
}

// The weights and the closing figures.
fn figure_lines(
    out: &mut [u8],
    at: usize,
    ledger: &[i64],
    whole: u64,
    n: usize,
    charge: Option<u32>,
    x: Closing,
) -> usize
    requires { (at + 4608 ≤ length out.old) × (bounded ledger.now ≡ true) × (whole ≤ most_whole) × (n ≤ most_cycles) }
    ensures { Wrote 4608 out.old at (figures_on ledger.now whole n charge x) out.new result }
{
    let weights = weight_lines(out, at, ledger, whole, n);
    let weighted = number_line(out, weights, b"weighted", x.weighted);
    let range = number_line(out, weighted, b"range", x.range);
    let next = charge_line(out, range, charge);
    recharge_line(out, next, x.recharge)
}

// The same, or the closing's refusal, behind which nothing stands.
fn closing_part(
    out: &mut [u8],
    at: usize,
    ledger: &[i64],
    whole: u64,
    n: usize,
    charge: Option<u32>,
    closing: Result<Closing, u32>,
) -> usize
    requires { (at + 4608 ≤ length out.old) × (bounded ledger.now ≡ true) × (whole ≤ most_whole) × (n ≤ most_cycles) }
    ensures { Wrote 4608 out.old at (closing_for ledger.now whole n charge closing) out.new result }
{
    match closing {
        Ok(x) => figure_lines(out, at, ledger, whole, n, charge, x),
        Err(k) => refused_line(out, at, k),
    }
}

// "before + drawn = whole".
fn whole_of(before: i64, drawn: i64) -> i64
    requires { Sized most_whole (before +ℤ drawn) }
    ensures { result ≡ before +ℤ drawn }
{
    before + drawn
}

// From the number of cycles to the last line.
pub fn behind_lines(
    out: &mut [u8],
    at: usize,
    f: Figures,
    amounts: Amounts,
    ledger: &[i64],
) -> usize
    requires { (at + 4806 ≤ length out.old)
        × (bounded ledger.now ≡ true)
        × Sized most_whole (amounts.before +ℤ f.drawn)
        × (f.cycles ≤ most_cycles) }
    ensures { Wrote 4806 out.old at
        (sum_text f.cycles f.outside f.drawn amounts (amounts.before +ℤ f.drawn)
        ++ closing_for ledger.now (up (amounts.before +ℤ f.drawn)) f.cycles amounts.charge f.closing)
        out.new result }
{
    let whole = whole_of(amounts.before, f.drawn);
    let next = sum_lines(out, at, f.cycles, f.outside, f.drawn, amounts, whole);
    closing_part(
        out,
        next,
        ledger,
        u64::try_from(whole).unwrap_or(0),
        f.cycles as usize,
        amounts.charge,
        f.closing,
    )
}
