// Whether the numbers of a state are within their limits.
ghost use Rattle.std.specs.Prelude.{◌≡◌, true, ◌≤◌};
ghost use Rattle.rules.specs.Bench.{most_seconds};
ghost use Rattle.values.specs.Limits.{is_method};
ghost use Rattle.state.specs.State.{is_progress, is_nothing, is_held, are_ends, is_stretch, are_stretched, is_stretched, most_of, is_run};

use crate::{Ends, Progress, Run, Stretch, Stretched, closed_of};
use rules::limits::{
    LEAST_SECONDS, LEAST_STRETCH_ENERGY, MOST_BELOW, MOST_CYCLES, MOST_OFFERED, MOST_SECONDS,
    MOST_STRETCH_DISTANCE, MOST_STRETCH_ENERGY,
};
use rules::{End, Method, Moment};
use values::{is_between, is_method, is_moment, is_tolerable};

// As many cycles, and as many seconds, as the numbers beside them are wide.
const CYCLES: u32 = MOST_CYCLES as u32;

const MOST_END: u16 = MOST_SECONDS as u16;

#[tactic(auto, unfolding(crate::specs::State::are_ends))]
fn are_ends(e: Ends) -> bool
    ensures { result ≡ are_ends e }
{
    e.first <= MOST_END && e.second <= MOST_END && e.third <= MOST_END && e.fourth <= MOST_END
}

// Whether the samples offered and counted are such as the end says.
#[tactic(auto, unfolding(crate::specs::State::is_progress))]
fn is_progress(progress: Progress, most: u32) -> bool
    ensures { result ≡ is_progress progress.end most progress.offered progress.counted }
{
    match progress.end {
        End::None => progress.counted == progress.offered && progress.counted <= most,
        End::Stop => progress.counted < progress.offered && progress.counted < most,
        End::Limit => progress.counted == most && most < progress.offered,
    }
}

// Whether nothing is held of an interval.
fn is_nothing(x: Moment) -> bool
    ensures { result ≡ is_nothing x }
{
    x.speed == 0 && x.energy == 0
}

// Whether what is held of the open interval is within its limits: one is open while the run goes on, from its first sample on.
#[tactic(auto, unfolding(crate::specs::State::is_held))]
fn is_held(progress: Progress) -> bool
    ensures { result ≡ is_held progress.end progress.counted progress.held }
{
    let held = progress.held;
    match progress.end {
        End::None => {
            if progress.counted == 0 {
                return is_nothing(held);
            }
            is_moment(held)
        }
        End::Stop | End::Limit => is_nothing(held),
    }
}

// Whether a stretch has no more than it can bring, and nothing where it has not begun.
fn is_stretch(begun: bool, x: Stretch) -> bool
    ensures { result ≡ is_stretch begun x }
{
    if !begun {
        return x.distance == 0 && x.energy == 0;
    }
    x.distance <= MOST_STRETCH_DISTANCE
        && is_between(LEAST_STRETCH_ENERGY, MOST_STRETCH_ENERGY, x.energy)
}

// Whether the numbers of the stretches are within their limits: whether intervals of M and of E are closed, and whether a sample of E is counted.
#[tactic(auto, unfolding(crate::specs::State::are_stretched))]
fn are_stretched(z: Stretched, m: bool, e: bool, watched: bool) -> bool
    ensures { result ≡ are_stretched z m e watched }
{
    let most = if watched { MOST_BELOW } else { 0 };
    is_stretch(m, z.in_m) && is_stretch(e, z.in_e) && z.watch <= most
}

// The same of a run: by the regular method there are no stretches.
fn is_stretched(run: Run) -> bool
    requires { (run.track.seconds ≤ most_seconds) × (is_method run.track.method ≡ true) }
    ensures { result ≡ is_stretched run }
{
    let stretched = run.stretched;
    match run.track.method {
        Method::Regular => are_stretched(stretched, false, false, false),
        Method::Shortened(x) => {
            let two = 40 * run.track.seconds;
            let end = 2 * two + x.length;
            let closed = closed_of(run.progress);
            are_stretched(
                stretched,
                two < closed,
                end < closed,
                end < run.progress.counted,
            )
        }
    }
}

// How many samples can count.
fn most_of(run: Run) -> u32
    requires { run.track.seconds ≤ most_seconds }
    ensures { result ≡ most_of run }
{
    match run.track.method {
        Method::Regular => CYCLES * (20 * run.track.seconds),
        Method::Shortened(_) => MOST_OFFERED,
    }
}

// Whether no number of the state is beyond its limits.
#[tactic(auto, unfolding(crate::specs::State::is_run))]
pub fn is_run(run: Run) -> bool
    ensures { result ≡ is_run run }
{
    LEAST_SECONDS <= run.track.seconds
        && run.track.seconds <= MOST_SECONDS
        && are_ends(run.track.ends)
        && is_tolerable(run.track.tolerances)
        && is_method(run.track.method)
        && run.progress.offered <= MOST_OFFERED
        && is_held(run.progress)
        && is_stretched(run)
        && is_progress(run.progress, most_of(run))
}
