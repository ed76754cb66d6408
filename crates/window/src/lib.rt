// The window of a position: its two ends, and the whole seconds between them.
#![tactic(auto)]

mod ends;

ghost use Rattle.std.specs.Prelude.{◌≡◌, true, ◌+◌, ◌≤◌, ◌<◌, pos};
ghost use Rattle.rules.specs.Cycle.{positions, seconds, valid};
ghost use Rattle.rules.specs.Band.{lo, hi, side, verdict};
ghost use Rattle.rules.specs.Bench.{most_time_tolerance};
ghost use Rattle.window.specs.Moving.{least_after, greatest_after, window_of, least_in, greatest_in};
ghost use Rattle.window.specs.Sides.{number_of};

use cycle::{point_of, seconds_of};
use ends::{left_edge, moved, right_edge, until_of};
use numbers::{larger, less, smaller};
use rules::Tolerances;

// An end of the window: its value, and what that gains at the next place, kept 1500 higher.
#[derive(Clone, Copy)]
pub struct Edge {
    pub value: u32,
    pub rise: u32,
}

// The least and the greatest over the whole seconds inside.
#[derive(Clone, Copy)]
pub struct Inner {
    pub low: u32,
    pub high: u32,
}

// The ends, what lies between them, and the position at which all is worked out anew.
#[derive(Clone, Copy)]
pub struct Window {
    pub left: Edge,
    pub right: Edge,
    pub inner: Inner,
    pub until: u32,
}

// Where a speed lies.
#[derive(Clone, Copy, Debug, PartialEq, Eq)]
pub enum Side {
    Inside,
    Below,
    Above,
}

// The number that the bench controller is told.
impl From<Side> for i32 {
    ghost from_gives = { λ side n. n ≡ pos (number_of side) };

    fn from(side: Side) -> i32 {
        match side {
            Side::Inside => 0,
            Side::Below => 1,
            Side::Above => 2,
        }
    }
}

// The least and the greatest over the whole seconds after second j, up to second k.
#[tactic(auto, using(laws::proofs::Sound::sound))]
fn inner_over(cycle: &[u8], j: u32, k: u32) -> Inner
    requires { (valid cycle.now ≡ true) × (k ≤ seconds cycle.now) }
    ensures { (result.low ≡ least_after cycle.now j k) × (result.high ≡ greatest_after cycle.now j k) }
{
    let mut low: u32 = 30000;
    let mut high: u32 = 0;
    for i in 0..less(k, j) {
        let x = 20 * u32::from(point_of(cycle, (j + 1 + i) as usize));
        low = smaller(low, x);
        high = larger(high, x);
    }
    Inner { low, high }
}

// The window of position p.
#[tactic(auto, using(laws::proofs::Sound::sound))]
pub fn window_at(cycle: &[u8], w: u32, p: u32) -> Window
    requires { (valid cycle.now ≡ true) × (w ≤ most_time_tolerance) × (p < positions cycle.now) }
    ensures value { result ≡ window_of cycle.now w p }
    ensures result_value { (least_in result ≡ lo cycle.now w p) × (greatest_in result ≡ hi cycle.now w p) }
{
    let t = seconds_of(cycle);
    let n = 20 * t;
    let left = left_edge(cycle, w, p);
    let right = right_edge(cycle, w, p, t);
    let inner = inner_over(cycle, less(p, w) / 20, smaller(n, p + w) / 20);
    Window {
        left,
        right,
        inner,
        until: until_of(w, p, n),
    }
}

// The window of position p + 1, from that of position p: only its ends move, as long as nothing is to be worked out anew.
#[tactic(auto, using(laws::proofs::Sound::sound, crate::proofs::Moves::shifts, crate::proofs::Moves::left_small, crate::proofs::Moves::right_small))]
pub fn shift(cycle: &[u8], w: u32, p: u32, window: Window) -> Window
    requires { (valid cycle.now ≡ true) × (p + 1 < positions cycle.now) × (window ≡ window_of cycle.now w p) × (p + 1 < window.until) }
    ensures { result ≡ window_of cycle.now w (p + 1) }
{
    Window {
        left: moved(window.left),
        right: moved(window.right),
        ..window
    }
}

// Where the speed v lies with the tolerance s.
#[tactic(auto, unfolding(rules::specs::Band::side))]
fn side_of(lo: u32, hi: u32, s: u32, v: u32) -> Side
    ensures { number_of result ≡ side lo hi s v }
{
    let speed = 20 * u64::from(v);
    let spare = 20 * u64::from(s);
    if speed + spare < u64::from(lo) {
        return Side::Below;
    }
    if u64::from(hi) + spare < speed {
        return Side::Above;
    }
    Side::Inside
}

// The verdict on the speed v in a window, with the tolerance s.
pub fn verdict_in(window: Window, s: u32, v: u32) -> Side
    ensures { number_of result ≡ side (least_in window) (greatest_in window) s v }
{
    let Window {
        left,
        right,
        inner,
        ..
    } = window;
    let lo = smaller(smaller(left.value, right.value), inner.low);
    let hi = larger(larger(left.value, right.value), inner.high);
    side_of(lo, hi, s, v)
}

// The verdict on the speed v at position p.
#[tactic(auto, unfolding(rules::specs::Band::verdict))]
pub fn verdict_at(cycle: &[u8], t: Tolerances, p: u32, v: u32) -> Side
    requires { (valid cycle.now ≡ true) × (t.time ≤ most_time_tolerance) × (p < positions cycle.now) }
    ensures { number_of result ≡ verdict cycle.now t p v }
{
    verdict_in(window_at(cycle, t.time, p), t.speed, v)
}
