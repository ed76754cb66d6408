// Where a cycle begins, and whether phases and stretches have begun and are finished where so many intervals are closed.
ghost use Rattle.std.specs.Prelude.{◌≡◌, true, ◌≤◌, ◌<◌};
ghost use Rattle.rules.specs.Bench.{most_positions, most_offered, most_cycles};
ghost use Rattle.rules.specs.Cycle.{phases, phase_start, valid};
ghost use Rattle.values.specs.Limits.{is_method};
ghost use Rattle.state.specs.State.{is_run};
ghost use Rattle.sources.specs.Sources.{most_first, first_around, first_in, phase_begun, phase_finished, begun_m, finished_m, begun_e};

use cycle::end_of;
use numbers::wide;
use rules::Method;
use rules::limits::MOST_OFFERED;
use state::Run;

// The first sample of cycle c, of n positions each, where M of m samples stands before the third of four.
// Stays: a number that no run reaches and no Option, as `first_around` of the specs says it: both tests of a phase just compare with it.
fn first_around(m: u32, n: u32, c: u32) -> u32
    requires { (m ≤ most_offered) × (n ≤ most_positions) }
    ensures { (result ≡ first_around m n c) × (result ≤ most_first) }
{
    if c < 2 {
        return c * n;
    }
    if c < 4 {
        return m + c * n;
    }
    MOST_OFFERED + 1
}

// The first sample of cycle c, and what no run reaches where there is no such cycle.
pub fn first_of(run: Run, c: usize) -> u32
    requires { (is_run run ≡ true) × (c < most_cycles) }
    ensures { (result ≡ first_in run c) × (result ≤ most_first) }
{
    let n = 20 * run.track.seconds;
    let k = c as u32;
    match run.track.method {
        Method::Regular => k * n,
        Method::Shortened(x) => first_around(x.length, n, k),
    }
}

// The second at which phase k starts.
fn start_of(cycle: &[u8], k: usize) -> u16
    requires { (valid cycle.now ≡ true) × (k < phases cycle.now) }
    ensures { result ≡ phase_start cycle.now k }
{
    if k == 0 {
        return 0;
    }
    end_of(cycle, k - 1)
}

// Whether phase k of a cycle that begins with this sample has begun.
pub fn phase_begun(cycle: &[u8], k: usize, first: u32, closed: u32) -> bool
    requires { (valid cycle.now ≡ true) × (first ≤ most_first) }
    ensures { result ≡ phase_begun cycle.now k first closed }
{
    k < wide(cycle[0]) && first + 20 * (start_of(cycle, k) as u32) < closed
}

// Whether it is finished.
pub fn phase_finished(cycle: &[u8], k: usize, first: u32, closed: u32) -> bool
    requires { (valid cycle.now ≡ true) × (first ≤ most_first) }
    ensures { result ≡ phase_finished cycle.now k first closed }
{
    k < wide(cycle[0]) && first + 20 * (end_of(cycle, k) as u32) <= closed
}

// Whether M has begun, behind two cycles of n positions.
// Stays: this and the next two differ in the rule, and not in a type, a size or a constant.
pub fn begun_m(method: Method, n: u32, closed: u32) -> bool
    requires { n ≤ most_positions }
    ensures { result ≡ begun_m method n closed }
{
    match method {
        Method::Regular => false,
        Method::Shortened(_) => 2 * n < closed,
    }
}

// Whether M is finished.
pub fn finished_m(method: Method, n: u32, closed: u32) -> bool
    requires { (n ≤ most_positions) × (is_method method ≡ true) }
    ensures { result ≡ finished_m method n closed }
{
    match method {
        Method::Regular => false,
        Method::Shortened(x) => 2 * n + x.length <= closed,
    }
}

// Whether E has begun, behind four cycles and M.
pub fn begun_e(method: Method, n: u32, closed: u32) -> bool
    requires { (n ≤ most_positions) × (is_method method ≡ true) }
    ensures { result ≡ begun_e method n closed }
{
    match method {
        Method::Regular => false,
        Method::Shortened(x) => 4 * n + x.length < closed,
    }
}
