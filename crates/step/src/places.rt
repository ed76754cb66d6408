// Where the run stands with a sample more.
ghost use Rattle.std.specs.Prelude.{◌≡◌, true, ◌+◌, ◌*◌, ◌≤◌, ◌<◌, min, length};
ghost use Rattle.rules.specs.Bench.{most_offered};
ghost use Rattle.rules.specs.Cycle.{phase_end, positions, valid};
ghost use Rattle.rules.specs.Plan.{layout_of};
ghost use Rattle.rules.specs.Shortened.{ride, stand};
ghost use Rattle.values.specs.Limits.{is_method};
ghost use Rattle.step.specs.Step.{offered_one, ended_by, open_row, open_phase};
ghost use Rattle.step.specs.Where.{next_at, next_of, progressed};

use crate::{Going, Next};
use cycle::{end_of, phase_of, seconds_of};
use numbers::smaller;
use rules::limits::{ROW_E, ROW_M};
use rules::{End, Method, Moment};
use state::Progress;
use window::Window;

// A row in which no sample stands.
// Stays: no Option: `open_row` (step/specs/Step.antt) says this row before the first sample, and each turn copies the struct that holds it.
const NO_ROW: usize = ROW_E + 1;

// Up to which position phase and window stay what they are, but for the window's ends.
pub fn until_in(cycle: &[u8], window: Window, phase: usize) -> u32
    requires { 2 + 2 * phase < length cycle.now }
    ensures { result ≡ min window.until (20 * phase_end cycle.now phase) }
{
    smaller(window.until, 20 * u32::from(end_of(cycle, phase)))
}

// The run stands where it stood, with other progress that counts as many samples.
fn with_progress(g: Going, progress: Progress) -> Going
    ensures { result ≡ progressed g progress }
{
    Going { progress, ..g }
}

// A sample more is offered to a run that has ended so.
pub fn offered_by(g: Going, end: End) -> Going
    requires { g.progress.offered < most_offered }
    ensures { result ≡ progressed g (offered_one g.progress end) }
{
    with_progress(
        g,
        Progress {
            offered: g.progress.offered + 1,
            end,
            ..g.progress
        },
    )
}

// A sample more is offered, with which the run ends so: it has closed the last interval, and none is open.
pub fn ended_by(g: Going, end: End) -> Going
    requires { g.progress.offered < most_offered }
    ensures { result ≡ progressed g (ended_by g.progress end) }
{
    with_progress(
        g,
        Progress {
            offered: g.progress.offered + 1,
            end,
            held: Moment {
                speed: 0,
                energy: 0,
            },
            ..g.progress
        },
    )
}

// Place i of the cycles, laid end to end.
fn ridden_at(cycle: &[u8], i: u32) -> Next
    requires { valid cycle.now ≡ true }
    ensures { result ≡ next_at cycle.now (ride i) }
{
    let n = 20 * seconds_of(cycle);
    let position = i % n;
    Next {
        row: (i / n) as usize,
        position,
        phase: phase_of(cycle, position),
    }
}

// In M or E, which have no positions.
fn beside_at(row: usize) -> Next
    ensures { result ≡ record { row = row; position = 0; phase = 0 } }
{
    Next {
        row,
        position: 0,
        phase: 0,
    }
}

// Where sample j of a shortened run stands, with M of m samples.
fn shortened_at(cycle: &[u8], m: u32, j: u32) -> Next
    requires { (valid cycle.now ≡ true) × (m ≤ most_offered) }
    ensures { result ≡ next_at cycle.now (stand cycle.now m j) }
{
    let two = 40 * seconds_of(cycle);
    if j < two {
        return ridden_at(cycle, j);
    }
    if j < two + m {
        return beside_at(ROW_M);
    }
    if j < 2 * two + m {
        return ridden_at(cycle, j - m);
    }
    beside_at(ROW_E)
}

// Where sample j stands.
pub fn place_at(cycle: &[u8], y: Method, j: u32) -> Next
    requires { (valid cycle.now ≡ true) × (is_method y ≡ true) }
    ensures { result ≡ next_of cycle.now y j }
{
    match y {
        Method::Regular => ridden_at(cycle, j),
        Method::Shortened(x) => shortened_at(cycle, x.length, j),
    }
}

// Where the last of n counted samples stands, whose interval is open; before the first, where no sample stands.
pub fn open_place(cycle: &[u8], y: Method, n: u32) -> Next
    requires { (valid cycle.now ≡ true) × (is_method y ≡ true) }
    ensures { (result.row ≡ open_row (layout_of cycle.now y) n) × (result.phase ≡ open_phase (layout_of cycle.now y) n) }
{
    if n == 0 {
        return beside_at(NO_ROW);
    }
    place_at(cycle, y, n - 1)
}
