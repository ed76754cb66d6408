// Every number of a trace, as a run and its ledger have it.
#![tactic(auto)]

mod begun;
mod standing;

ghost use Rattle.std.specs.Prelude.{◌≡◌, true, ◌*◌, ◌≤◌, ◌<◌};
ghost use Rattle.numbers.specs.Whole.{Sized};
ghost use Rattle.rules.specs.Bench.{most_cycles, most_phases};
ghost use Rattle.rules.specs.Course.{row_e};
ghost use Rattle.rules.specs.Cycle.{valid};
ghost use Rattle.rules.specs.Shown.{most_energy, most_distance};
ghost use Rattle.ledger.specs.Row.{bounded};
ghost use Rattle.state.specs.State.{is_run};
ghost use Rattle.sources.specs.Sources.{phase_on, row_on, outside_on, stretch_m, stretch_e, stop_on, row_of};

use begun::{begun_e, begun_m, finished_m, first_of, phase_begun, phase_finished};
use ledger::totals::{distance_in, energy_in};
use rules::{Gathered, Method};
use standing::{ride_stop, stop_around};
use state::{Run, closed_of};

// Where the sample that stops a run stands: at this position of E, or of this cycle at this position, all from 0.
#[derive(Clone, Copy, Debug, PartialEq, Eq)]
pub enum Stop {
    InE(u32),
    At(u32, u32),
}

// Phase k of cycle c.
pub fn phase_on(run: Run, cycle: &[u8], ledger: &[i64], c: usize, k: usize) -> Gathered
    requires { (is_run run ≡ true) × (valid cycle.now ≡ true) × (bounded ledger.now ≡ true) × (c < most_cycles) × (k < most_phases) }
    ensures { result ≡ phase_on run cycle.now ledger.now c k }
{
    let first = first_of(run, c);
    let closed = closed_of(run.progress);
    let begun = phase_begun(cycle, k, first, closed);
    let finished = phase_finished(cycle, k, first, closed);
    Gathered {
        energy: ledger[9 * c + k],
        distance: ledger[9 * c + (4 + k)],
        begun,
        finished,
    }
}

// Cycle c.
pub fn row_on(run: Run, ledger: &[i64], c: usize) -> Gathered
    requires { (is_run run ≡ true) × (bounded ledger.now ≡ true) × (c < most_cycles) }
    ensures value { result ≡ row_on run ledger.now c }
    ensures sized { Sized (most_phases * most_energy) result.energy × Sized (most_phases * most_distance) result.distance }
{
    let first = first_of(run, c);
    let closed = closed_of(run.progress);
    let energy = energy_in(ledger, c);
    let distance = distance_in(ledger, c);
    Gathered {
        energy,
        distance,
        begun: first < closed,
        finished: first + 20 * run.track.seconds <= closed,
    }
}

// The outside count of cycle c.
pub fn outside_on(ledger: &[i64], c: usize) -> i64
    requires { (bounded ledger.now ≡ true) × (c < most_cycles) }
    ensures { result ≡ outside_on ledger.now c }
{
    ledger[9 * c + 8]
}

pub fn stretch_m(run: Run) -> Gathered
    requires { is_run run ≡ true }
    ensures { result ≡ stretch_m run }
{
    let n = 20 * run.track.seconds;
    let closed = closed_of(run.progress);
    let begun = begun_m(run.track.method, n, closed);
    let finished = finished_m(run.track.method, n, closed);
    Gathered {
        energy: run.stretched.in_m.energy,
        distance: run.stretched.in_m.distance as i64,
        begun,
        finished,
    }
}

// E is never finished.
pub fn stretch_e(run: Run) -> Gathered
    requires { is_run run ≡ true }
    ensures { result ≡ stretch_e run }
{
    let n = 20 * run.track.seconds;
    let closed = closed_of(run.progress);
    let begun = begun_e(run.track.method, n, closed);
    Gathered {
        energy: run.stretched.in_e.energy,
        distance: run.stretched.in_e.distance as i64,
        begun,
        finished: false,
    }
}

// Where the sample behind those counted stands.
pub fn stop_on(run: Run) -> Stop
    requires { is_run run ≡ true }
    ensures value { result ≡ stop_on run }
    ensures cycle_le_row_e { row_of result ≤ row_e }
{
    let n = 20 * run.track.seconds;
    let counted = run.progress.counted;
    match run.track.method {
        Method::Regular => ride_stop(n, counted),
        Method::Shortened(x) => stop_around(x.length, n, counted),
    }
}
