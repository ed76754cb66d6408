// One accepted sample.
#![tactic(auto)]

mod counting;
mod lending;
mod places;
mod stretches;

ghost use Rattle.std.specs.Prelude.{◌≡◌, true, not, ℕ, ◌<◌, ◌≤◌, length};
ghost use Rattle.numbers.specs.Whole.{Sized};
ghost use Rattle.laws.specs.Beside.{is_moment, is_open};
ghost use Rattle.rules.specs.Bench.{most_time_tolerance, most_offered, most_phases, most_cycles};
ghost use Rattle.rules.specs.Cycle.{valid};
ghost use Rattle.rules.specs.Band.{inside_of};
ghost use Rattle.rules.specs.Plan.{plan};
ghost use Rattle.rules.specs.Shown.{map_words, ledger_numbers};
ghost use Rattle.values.specs.Limits.{is_method};
ghost use Rattle.window.specs.Moving.{least_in, greatest_in};
ghost use Rattle.ledger.specs.Row.{at, most_held};
ghost use Rattle.state.specs.State.{left};
ghost use Rattle.step.specs.Step.{interval_closed, stretch_closed, run_to};
ghost use Rattle.step.specs.Where.{standing, taking, one_judged, open_taken, one_taken, StretchFits, Counts, Kept};

use counting::counted_by;
use lending::{add_in_cycle, count_in_cycle, mark_sample};
use places::{ended_by, offered_by, open_place, place_at, until_in};
use rules::limits::MOST_CYCLES;
use rules::{End, Method, Moment, Tolerances};
use state::{Progress, Run, Stretched};
use stretches::{close_stretch, take_beside};
use window::{Side, Window, verdict_in, window_at};

// Where a run stands while samples are taken: row, position and phase of the next sample and the window of its position, beside its progress.
// Up to position `until` only the ends of the window move. The open interval is of the row and phase of the sample before.
#[derive(Clone, Copy)]
pub struct Going {
    pub progress: Progress,
    pub row: usize,
    pub phase: usize,
    pub window: Window,
    pub open_row: usize,
    pub open_phase: usize,
    pub position: u32,
    pub until: u32,
}

// Where it stands, and what it has of its stretches.
#[derive(Clone, Copy)]
pub struct Taken {
    pub going: Going,
    pub stretched: Stretched,
}

// Where the next sample stands.
#[derive(Clone, Copy, Debug, PartialEq, Eq)]
struct Next {
    row: usize,
    position: u32,
    phase: usize,
}

// Where the run stands.
pub fn going_at(cycle: &[u8], run: Run) -> Going
    requires { (valid cycle.now ≡ true)
        × (run.track.tolerances.time ≤ most_time_tolerance)
        × (is_method run.track.method ≡ true) }
    ensures { result ≡ standing cycle.now run.track.tolerances.time run.track.method run.progress }
{
    let progress = run.progress;
    let method = run.track.method;
    let next = place_at(cycle, method, progress.counted);
    let window = window_at(cycle, run.track.tolerances.time, next.position);
    let last = open_place(cycle, method, progress.counted);
    Going {
        progress,
        row: next.row,
        phase: next.phase,
        window,
        open_row: last.row,
        open_phase: last.phase,
        position: next.position,
        until: until_in(cycle, window, next.phase),
    }
}

// The run, taken on to where it stands now.
pub fn with_taken(run: Run, x: Taken) -> Run
    ensures { result ≡ run_to run x.going.progress x.stretched }
{
    Run {
        progress: x.going.progress,
        stretched: x.stretched,
        ..run
    }
}

// Whether the speed v is outside in a window, with the tolerance s.
fn is_outside(window: Window, s: u32, v: u32) -> bool
    ensures { result ≡ not (inside_of (least_in window) (greatest_in window) s v) }
{
    verdict_in(window, s, v) != Side::Inside
}

// A sample of an open run closes the open interval, in the ledger or in a stretch; before the first sample none is open.
fn close_interval(g: Going, z: Stretched, ledger: &mut [i64], x: Moment) -> Stretched
    requires ledger_numbers_in_bounds { (ledger_numbers ≤ length ledger.old)
        × (g.open_phase < most_phases)
        × (is_moment g.progress.held ≡ true)
        × (is_moment x ≡ true)
        × StretchFits z.in_m most_offered
        × StretchFits z.in_e most_offered }
    requires by_index { (i : ℕ) → i < ledger_numbers → Sized most_held (at ledger.old i) }
    ensures value { result ≡ stretch_closed g.open_row z g.progress.held x }
    ensures ledger_after { ledger.new ≡ interval_closed g.open_row g.open_phase ledger.old g.progress.held x }
{
    if MOST_CYCLES <= g.open_row {
        return close_stretch(g.open_row, z, g.progress.held, x);
    }
    add_in_cycle(ledger, g.open_row, g.open_phase, g.progress.held, x);
    z
}

// A sample that stands in a cycle, of an open run of which the last interval is closed.
// Stays: here and below the parameters stand one by one; `take_one`'s contract names each, and a struct made anew at each sample would be no plainer.
fn judge_one(
    cycle: &[u8],
    t: Tolerances,
    y: Method,
    g: Going,
    ledger: &mut [i64],
    map: &mut [u64],
    x: Moment,
) -> Going
    requires counts { Counts cycle.now t.time y g
        × (g.row < most_cycles)
        × (is_moment x ≡ true)
        × (ledger_numbers ≤ length ledger.old)
        × (map_words ≤ length map.old) }
    requires by_index { (i : ℕ) → i < ledger_numbers → Sized most_held (at ledger.old i) }
    ensures { left result ledger.new map.new
        ≡ one_judged cycle.now t y g ledger.old map.old x }
{
    let outside = is_outside(g.window, t.speed, x.speed as u32);
    mark_sample(map, g.position as usize, outside);
    let over = count_in_cycle(ledger, g.row, outside, t.allowance);
    if over {
        return ended_by(g, End::Stop);
    }
    counted_by(cycle, t.time, y, g, x)
}

// A sample of an open run: it closes the last interval, and is judged where it stands in a cycle.
fn take_open(
    cycle: &[u8],
    t: Tolerances,
    y: Method,
    g: Going,
    z: Stretched,
    ledger: &mut [i64],
    map: &mut [u64],
    x: Moment,
) -> Taken
    requires kept { Kept (plan cycle.now t y) (left (taking g z) ledger.old map.old) }
    requires offered_lt_most_offered { (g.progress.offered < most_offered) × (is_moment x ≡ true) × (is_open g.progress.end ≡ true) }
    ensures { left result ledger.new map.new
        ≡ open_taken cycle.now t y (taking g z) ledger.old map.old x }
{
    let closed = close_interval(g, z, ledger, x);
    if MOST_CYCLES <= g.row {
        return take_beside(cycle, t, y, g, closed, x);
    }
    Taken {
        going: judge_one(cycle, t, y, g, ledger, map, x),
        stretched: closed,
    }
}

// One accepted sample: judged while the run is open.
pub fn take_one(
    cycle: &[u8],
    t: Tolerances,
    y: Method,
    g: Going,
    z: Stretched,
    ledger: &mut [i64],
    map: &mut [u64],
    x: Moment,
) -> Taken
    requires kept { Kept (plan cycle.now t y) (left (taking g z) ledger.old map.old) }
    requires offered_lt_most_offered { (g.progress.offered < most_offered) × (is_moment x ≡ true) }
    ensures { left result ledger.new map.new
        ≡ one_taken cycle.now t y (taking g z) ledger.old map.old x }
{
    let end = g.progress.end;
    // Stays: two arms that are alike; joined, `End::Stop | End::Limit`, they cost four instructions more at each sample, of 175.
    match end {
        End::None => take_open(cycle, t, y, g, z, ledger, map, x),
        End::Stop => Taken {
            going: offered_by(g, end),
            stretched: z,
        },
        End::Limit => Taken {
            going: offered_by(g, end),
            stretched: z,
        },
    }
}
