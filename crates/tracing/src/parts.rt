// The lines of phases, cycles and stretches, each written from a place on. Each function answers the place after what it wrote.
ghost use Rattle.std.specs.Prelude.{◌≡◌, true, ◌+◌, ◌≤◌, ◌<◌, length};
ghost use Rattle.rules.specs.Bench.{most_phases, most_cycles};
ghost use Rattle.rules.specs.Cycle.{valid};
ghost use Rattle.rules.specs.Listing.{in_turn};
ghost use Rattle.ledger.specs.Row.{bounded};
ghost use Rattle.sheet.specs.Overlaid.{Wrote};
ghost use Rattle.state.specs.State.{is_run};
ghost use Rattle.tracing.specs.Traced.{phase_at, cycle_at, parts_on};

use rules::limits::{MOST_CYCLES, MOST_PHASES};
use sources::{outside_on, phase_on, row_on, stretch_e, stretch_m};
use state::Run;
use traces::parts::{phase_line, row_line, stretch_line};

// The phases of cycle c.
fn phase_lines(out: &mut [u8], at: usize, run: Run, cycle: &[u8], ledger: &[i64], c: usize) -> usize
    requires { (at + 468 ≤ length out.old) × (is_run run ≡ true) × (valid cycle.now ≡ true) × (bounded ledger.now ≡ true) × (c < most_cycles) }
    ensures { Wrote 468 out.old at (in_turn (phase_at run cycle.now ledger.now c) most_phases) out.new result }
{
    let mut next = at;
    for k in 0..MOST_PHASES {
        let g = phase_on(run, cycle, ledger, c, k);
        next = phase_line(out, next, c as u64, k as u64, g);
    }
    next
}

// Cycle c, behind its phases.
fn cycle_lines(out: &mut [u8], at: usize, run: Run, cycle: &[u8], ledger: &[i64], c: usize) -> usize
    requires { (at + 626 ≤ length out.old) × (is_run run ≡ true) × (valid cycle.now ≡ true) × (bounded ledger.now ≡ true) × (c < most_cycles) }
    ensures { Wrote 626 out.old at (cycle_at run cycle.now ledger.now c) out.new result }
{
    let g = row_on(run, ledger, c);
    let outside = outside_on(ledger, c);
    let next = phase_lines(out, at, run, cycle, ledger, c);
    row_line(out, next, c as u64, g, outside)
}

// All cycles.
fn all_cycles(out: &mut [u8], at: usize, run: Run, cycle: &[u8], ledger: &[i64]) -> usize
    requires { (at + 40064 ≤ length out.old) × (is_run run ≡ true) × (valid cycle.now ≡ true) × (bounded ledger.now ≡ true) }
    ensures { Wrote 40064 out.old at (in_turn (cycle_at run cycle.now ledger.now) most_cycles) out.new result }
{
    let mut next = at;
    for c in 0..MOST_CYCLES {
        next = cycle_lines(out, next, run, cycle, ledger, c);
    }
    next
}

// The stretches behind them, M first.
pub fn part_lines(out: &mut [u8], at: usize, run: Run, cycle: &[u8], ledger: &[i64]) -> usize
    requires { (at + 40222 ≤ length out.old) × (is_run run ≡ true) × (valid cycle.now ≡ true) × (bounded ledger.now ≡ true) }
    ensures { Wrote 40222 out.old at (parts_on run cycle.now ledger.now) out.new result }
{
    let in_m = stretch_m(run);
    let in_e = stretch_e(run);
    let cycles = all_cycles(out, at, run, cycle, ledger);
    let next = stretch_line(out, cycles, b"M", in_m);
    stretch_line(out, next, b"E", in_e)
}
