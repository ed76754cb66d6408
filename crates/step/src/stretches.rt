// A sample that stands in no cycle: in M or E, or behind the last cycle of a regular run.
ghost use Rattle.std.specs.Prelude.{◌≡◌, true, ◌≤◌, leb};
ghost use Rattle.rules.specs.Bench.{most_speed, most_offered, most_cycles};
ghost use Rattle.rules.specs.declared.Method.TheVariants.{Shortened as with_stretches};
ghost use Rattle.rules.specs.Shortened.{is_below, most_below};
ghost use Rattle.laws.specs.Beside.{is_moment, watch_next};
ghost use Rattle.step.specs.Step.{counted_one, stretch_with, stretch_closed, watch_in};
ghost use Rattle.step.specs.Where.{standing, taking, one_beside, StretchFits, Counts};

use crate::counting::{moved_by, resumed_by};
use crate::places::ended_by;
use crate::{Going, Taken};
use cycle::seconds_of;
use rules::limits::{MOST_BELOW, ROW_E, ROW_M};
use rules::{End, Method, Moment, Stretches, Tolerances};
use state::{Stretch, Stretched};

// An interval more in a stretch, from sample x to sample y.
fn with_interval(z: Stretch, x: Moment, y: Moment) -> Stretch
    requires { StretchFits z most_offered × (is_moment x ≡ true) × (is_moment y ≡ true) }
    ensures { result ≡ stretch_with z x y }
{
    Stretch {
        energy: z.energy + (x.energy + y.energy),
        distance: z.distance + (x.speed + y.speed),
    }
}

// The interval from sample x to sample y is of this row: M's or E's.
#[tactic(auto, unfolding(crate::specs::Step::stretch_closed))]
pub fn close_stretch(row: usize, z: Stretched, x: Moment, y: Moment) -> Stretched
    requires { StretchFits z.in_m most_offered × StretchFits z.in_e most_offered × (is_moment x ≡ true) × (is_moment y ≡ true) }
    ensures { result ≡ stretch_closed row z x y }
{
    if row == ROW_M {
        return Stretched {
            in_m: with_interval(z.in_m, x, y),
            ..z
        };
    }
    if row == ROW_E {
        return Stretched {
            in_e: with_interval(z.in_e, x, y),
            ..z
        };
    }
    z
}

// Whether the set speed is reached, and how many samples are below in a row, with a sample more in E: of the set speed u, the tolerance s, the speed v.
fn watch_next(u: u32, s: u32, v: u64, watch: u64) -> u64
    requires { (v ≤ most_speed) × (watch ≤ most_below) }
    ensures { result ≡ watch_next (leb u v) (is_below u s v) watch }
{
    if u64::from(u) <= v {
        return 1;
    }
    if watch == 0 {
        return 0;
    }
    if v + u64::from(s) < u64::from(u) {
        return watch + 1;
    }
    1
}

// The same where the sample stands in this row: M has no part in it.
#[tactic(auto, unfolding(crate::specs::Step::watch_in))]
fn watch_in(y: Stretches, s: u32, row: usize, v: u64, watch: u64) -> u64
    requires { (v ≤ most_speed) × (watch ≤ most_below) }
    ensures { result ≡ watch_in (with_stretches y) s row v watch }
{
    if row != ROW_E {
        return watch;
    }
    watch_next(y.speed, s, v, watch)
}

// A sample of M or E that counts: the next stands there too, or in cycle 3.
fn counted_beside(cycle: &[u8], w: u32, y: Stretches, g: Going, x: Moment) -> Going
    requires { Counts cycle.now w (with_stretches y) g × (most_cycles ≤ g.row) }
    ensures { result ≡ standing cycle.now w (with_stretches y) (counted_one g.progress x) }
{
    if g.row == ROW_M && 40 * seconds_of(cycle) + y.length <= g.progress.counted + 1 {
        return resumed_by(cycle, w, g, x);
    }
    moved_by(g, x)
}

// A sample of M or E, of which the last interval is closed: in E the 80th below in a row stops the run.
fn take_stretch(
    cycle: &[u8],
    t: Tolerances,
    y: Stretches,
    g: Going,
    z: Stretched,
    x: Moment,
) -> Taken
    requires { Counts cycle.now t.time (with_stretches y) g × (most_cycles ≤ g.row) × (is_moment x ≡ true) × (z.watch ≤ most_below) }
    ensures { result ≡ one_beside cycle.now t (with_stretches y) (taking g z) x }
{
    let watch = watch_in(y, t.speed, g.row, x.speed, z.watch);
    if MOST_BELOW < watch {
        return Taken {
            going: ended_by(g, End::Stop),
            stretched: z,
        };
    }
    Taken {
        going: counted_beside(cycle, t.time, y, g, x),
        stretched: Stretched { watch, ..z },
    }
}

// A sample that stands in no cycle: the regular method ends there.
pub fn take_beside(
    cycle: &[u8],
    t: Tolerances,
    y: Method,
    g: Going,
    z: Stretched,
    x: Moment,
) -> Taken
    requires { Counts cycle.now t.time y g × (most_cycles ≤ g.row) × (is_moment x ≡ true) × (z.watch ≤ most_below) }
    ensures { result ≡ one_beside cycle.now t y (taking g z) x }
{
    match y {
        Method::Regular => Taken {
            going: ended_by(g, End::Limit),
            stretched: z,
        },
        Method::Shortened(s) => take_stretch(cycle, t, s, g, z, x),
    }
}
