// A started run's state, and the tests that come before it or its memory is touched.
#![tactic(auto)]

mod around;
mod own;

ghost use Rattle.std.specs.Prelude.{◌≡◌, true, ◌≤◌, ◌<◌};
ghost use Rattle.rules.specs.Bench.{most_cycles};
ghost use Rattle.rules.specs.Cycle.{seconds, valid};
ghost use Rattle.laws.specs.Answers.{refused_by};
ghost use Rattle.state.specs.State.{closed_by, end_or_zero, ends_of, is_run, is_lent, is_starts, run_ground};
ghost use Rattle.state.specs.Refusals.{with_method, start_refusal, sample_refusal, beside_by, cycles_by, last_cycle};

use around::{finished_around, last_around, last_judged};
use cycle::{end_of, is_cycle, seconds_of};
use ledger::whole::is_bounded;
use numbers::{less, smaller, wide};
use own::is_run;
use rules::limits::{LEDGER_NUMBERS, MAP_WORDS, MOST_OFFERED};
use rules::{End, Method, Moment, Refusal, Sample, Tolerances};
use values::{is_method, is_sample, is_tolerable};

// The seconds at which the phases end; 0 for a phase that does not exist.
// Stays: four fields; `ends_of`, `are_ends` and `Limits` speak of each by name, and no code goes over them: an array is no plainer.
#[derive(Clone, Copy, Debug, PartialEq, Eq)]
pub struct Ends {
    pub first: u16,
    pub second: u16,
    pub third: u16,
    pub fourth: u16,
}

// What is fixed before the first sample: T, the phase ends, the tolerances, the method.
#[derive(Clone, Copy, Debug, PartialEq, Eq)]
pub struct Track {
    pub seconds: u32,
    pub ends: Ends,
    pub tolerances: Tolerances,
    pub method: Method,
}

// What a sample changes: how many were offered, how many count, how the run ended, and what closes the open interval: the last counted sample's
// product and speed, and 0 where no interval is open.
#[derive(Clone, Copy, Debug, PartialEq, Eq)]
pub struct Progress {
    pub offered: u32,
    pub counted: u32,
    pub end: End,
    pub held: Moment,
}

// What the closed intervals of a stretch have brought.
#[derive(Clone, Copy, Debug, PartialEq, Eq)]
pub struct Stretch {
    pub energy: i64,
    pub distance: u64,
}

// What a run has of its stretches M and E. `watch` is 0 until a sample of E has reached the set speed, and then one more than the samples below in a row.
// Stays: the watch is one number, as `watch_next` counts it and `is_run` bounds it; every number that is handed in is answered.
#[derive(Clone, Copy, Debug, PartialEq, Eq)]
pub struct Stretched {
    pub in_m: Stretch,
    pub in_e: Stretch,
    pub watch: u64,
}

// A started run. Where its next sample stands is not in it: method, T and counted say so.
#[derive(Clone, Copy, Debug, PartialEq, Eq)]
pub struct Run {
    pub track: Track,
    pub progress: Progress,
    pub stretched: Stretched,
}

// The run, by this method.
pub fn with_method(run: Run, method: Method) -> Run
    ensures { result ≡ with_method run method }
{
    let track = Track {
        method,
        ..run.track
    };
    Run { track, ..run }
}

// The end of phase k, and 0 where there is no such phase.
#[tactic(auto, using(laws::proofs::Sound::sound))]
fn end_or_zero(cycle: &[u8], k: usize) -> u16
    requires { valid cycle.now ≡ true }
    ensures { result ≡ end_or_zero cycle.now k }
{
    if k < wide(cycle[0]) {
        return end_of(cycle, k);
    }
    0
}

// Stays: `valid cycle` is asked here and by many: the functions are public, and a type that carries it would ask more of who has bytes only.
#[tactic(auto, unfolding(crate::specs::State::ends_of))]
pub fn ends_of(cycle: &[u8]) -> Ends
    requires { valid cycle.now ≡ true }
    ensures { result ≡ ends_of cycle.now }
{
    Ends {
        first: end_or_zero(cycle, 0),
        second: end_or_zero(cycle, 1),
        third: end_or_zero(cycle, 2),
        fourth: end_or_zero(cycle, 3),
    }
}

// Whether ledger and map are long enough, and no number of ledger or state is out of bounds.
#[tactic(auto, unfolding(crate::specs::State::is_lent))]
fn is_lent(run: Run, ledger: &[i64], map: &[u64]) -> bool
    ensures { result ≡ is_lent run ledger.now map.now }
{
    is_bounded(ledger) && MAP_WORDS <= map.len() && is_run(run)
}

// Whether the bytes are a cycle, the start's in T and phase ends.
#[tactic(auto, unfolding(crate::specs::State::is_starts, crate::specs::State::same_ends), using(laws::proofs::Sound::sound))]
fn is_starts(run: Run, cycle: &[u8]) -> bool
    ensures { result ≡ is_starts run cycle.now }
{
    is_cycle(cycle) && seconds_of(cycle) == run.track.seconds && ends_of(cycle) == run.track.ends
}

// 1 or 2, unless a started run's operation may go on.
#[tactic(auto, unfolding(crate::specs::State::run_ground, rules::specs::Words::unless))]
pub fn ground_refusal(run: Run, cycle: &[u8], ledger: &[i64], map: &[u64]) -> Result<(), Refusal>
    ensures { refused_by result ≡ run_ground run cycle.now ledger.now map.now 0 }
{
    if !is_lent(run, ledger, map) {
        return Err(Refusal::Ground);
    }
    if !is_starts(run, cycle) {
        return Err(Refusal::Cycle);
    }
    Ok(())
}

#[tactic(auto, unfolding(crate::specs::Refusals::start_refusal, rules::specs::Words::unless))]
pub fn start_refusal(
    cycle: &[u8],
    t: Tolerances,
    y: Method,
    ledger: &[i64],
    map: &[u64],
) -> Result<(), Refusal>
    ensures { refused_by result ≡ start_refusal cycle.now t y ledger.now map.now }
{
    if ledger.len() < LEDGER_NUMBERS || map.len() < MAP_WORDS {
        return Err(Refusal::Ground);
    }
    if !is_cycle(cycle) {
        return Err(Refusal::Cycle);
    }
    if !is_tolerable(t) {
        return Err(Refusal::Tolerance);
    }
    if !is_method(y) {
        return Err(Refusal::Stretches);
    }
    Ok(())
}

#[tactic(auto, unfolding(crate::specs::Refusals::sample_refusal, crate::specs::State::run_ground, rules::specs::Words::unless))]
pub fn sample_refusal(
    run: Run,
    cycle: &[u8],
    ledger: &[i64],
    map: &[u64],
    x: Sample,
) -> Result<(), Refusal>
    ensures { refused_by result ≡ sample_refusal run cycle.now ledger.now map.now x }
{
    ground_refusal(run, cycle, ledger, map)?;
    if MOST_OFFERED <= run.progress.offered {
        return Err(Refusal::Full);
    }
    if !is_sample(x) {
        return Err(Refusal::Sample);
    }
    Ok(())
}

// How many intervals are closed.
pub fn closed_of(progress: Progress) -> u32
    ensures { result ≡ closed_by progress }
{
    smaller(less(progress.offered, 1), progress.counted)
}

// The energy of M and E.
// Stays: `is_run run` is asked here and by many, for the same reason; `ground_refusal` tests it once for each call.
pub fn beside_of(run: Run) -> i64
    requires { is_run run ≡ true }
    ensures { result ≡ beside_by run }
{
    run.stretched.in_m.energy + run.stretched.in_e.energy
}

// How many cycles are finished: as many as the intervals closed make.
pub fn cycles_of(run: Run) -> u32
    requires { is_run run ≡ true }
    ensures { (result ≡ cycles_by run) × (result ≤ most_cycles) }
{
    let closed = closed_of(run.progress);
    let n = 20 * run.track.seconds;
    match run.track.method {
        Method::Regular => closed / n,
        Method::Shortened(x) => finished_around(closed, n, x.length),
    }
}

// The cycle last judged.
pub fn last_cycle(run: Run, cycle: &[u8]) -> usize
    requires { (valid cycle.now ≡ true) × (seconds cycle.now ≡ run.track.seconds) × (is_run run ≡ true) }
    ensures { (result ≡ last_cycle run cycle.now) × (result < most_cycles) }
{
    let n = 20 * run.track.seconds;
    let last = last_judged(run.progress);
    match run.track.method {
        Method::Regular => (last / n) as usize,
        Method::Shortened(x) => last_around(last, n, x.length) as usize,
    }
}
