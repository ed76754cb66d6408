// A sample that counts: where the run stands with it.
ghost use Rattle.std.specs.Prelude.{◌≡◌, true, ◌+◌, ◌*◌, ◌≤◌, ◌<◌};
ghost use Rattle.rules.specs.Bench.{most_time_tolerance, most_offered, most_cycles};
ghost use Rattle.rules.specs.Cycle.{phase_at, positions, valid};
ghost use Rattle.step.specs.Step.{counted_one};
ghost use Rattle.step.specs.Where.{standing, next_of, moved_on, resumed_on, Counts};

use crate::places::{place_at, until_in};
use crate::{Going, Next};
use cycle::{end_of, seconds_of};
use rules::{End, Method, Moment};
use state::Progress;
use window::{shift, window_at};

// The progress with a sample more, which counts and is held.
fn counted_one(progress: Progress, x: Moment) -> Progress
    requires { (progress.offered < most_offered) × (progress.counted ≤ progress.offered) }
    ensures { result ≡ counted_one progress x }
{
    Progress {
        offered: progress.offered + 1,
        counted: progress.counted + 1,
        end: End::None,
        held: x,
    }
}

// The phase of a position, from that of the position before.
fn next_phase(cycle: &[u8], phase: usize, position: u32) -> usize
    requires { (valid cycle.now ≡ true) × (position + 1 < positions cycle.now) × (phase ≡ phase_at cycle.now position) }
    ensures { result ≡ phase_at cycle.now (position + 1) }
{
    if position + 1 < 20 * u32::from(end_of(cycle, phase)) {
        return phase;
    }
    phase + 1
}

// Where the sample behind a counted one of a cycle stands.
fn next_place(cycle: &[u8], w: u32, y: Method, g: Going) -> Next
    requires { Counts cycle.now w y g × (g.row < most_cycles) }
    ensures { result ≡ next_of cycle.now y (g.progress.counted + 1) }
{
    let position = g.position;
    if position + 1 < 20 * seconds_of(cycle) {
        return Next {
            row: g.row,
            position: position + 1,
            phase: next_phase(cycle, g.phase, position),
        };
    }
    place_at(cycle, y, g.progress.counted + 1)
}

// A sample of a cycle that counts, behind which phase, row or window may be others: all is worked out anew.
fn turned_by(cycle: &[u8], w: u32, y: Method, g: Going, x: Moment) -> Going
    requires { Counts cycle.now w y g × (g.row < most_cycles) }
    ensures { result ≡ standing cycle.now w y (counted_one g.progress x) }
{
    let next = next_place(cycle, w, y, g);
    let window = window_at(cycle, w, next.position);
    Going {
        progress: counted_one(g.progress, x),
        row: next.row,
        phase: next.phase,
        window,
        open_row: g.row,
        open_phase: g.phase,
        position: next.position,
        until: until_in(cycle, window, next.phase),
    }
}

// The last sample of M counts: the next is the first of cycle 3.
pub fn resumed_by(cycle: &[u8], w: u32, g: Going, x: Moment) -> Going
    requires { (valid cycle.now ≡ true)
        × (w ≤ most_time_tolerance)
        × (g.progress.offered < most_offered)
        × (g.progress.counted ≤ g.progress.offered) }
    ensures { result ≡ resumed_on cycle.now w g x }
{
    let window = window_at(cycle, w, 0);
    Going {
        progress: counted_one(g.progress, x),
        row: 2,
        phase: 0,
        window,
        open_row: g.row,
        open_phase: g.phase,
        position: 0,
        until: until_in(cycle, window, 0),
    }
}

// A sample of M or E that counts, behind which the next stands in the same stretch.
pub fn moved_by(g: Going, x: Moment) -> Going
    requires { (g.progress.offered < most_offered) × (g.progress.counted ≤ g.progress.offered) }
    ensures { result ≡ moved_on g x }
{
    Going {
        progress: counted_one(g.progress, x),
        open_row: g.row,
        open_phase: g.phase,
        ..g
    }
}

// A sample of a cycle that counts: its interval is open.
pub fn counted_by(cycle: &[u8], w: u32, y: Method, g: Going, x: Moment) -> Going
    requires { Counts cycle.now w y g × (g.row < most_cycles) }
    ensures { result ≡ standing cycle.now w y (counted_one g.progress x) }
{
    let position = g.position;
    if g.until <= position + 1 {
        return turned_by(cycle, w, y, g, x);
    }
    Going {
        progress: counted_one(g.progress, x),
        window: shift(cycle, w, position, g.window),
        open_row: g.row,
        open_phase: g.phase,
        position: position + 1,
        ..g
    }
}
