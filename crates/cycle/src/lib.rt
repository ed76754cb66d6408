// The cycle's bytes, as field 3's value has them: the test of its rules, and its parts.
#![tactic(auto)]

ghost use Rattle.std.specs.Prelude.{◌≡◌, true, ◌+◌, ◌-◌, ◌*◌, ◌≤◌, ◌<◌, length};
ghost use Rattle.rules.specs.Words.{all_below};
ghost use Rattle.rules.specs.Cycle.{phases, phase_end, phase_start, seconds, point, rises, is_speed, valid, positions, phase_at};

use numbers::{read16, wide};
use rules::limits::{LEAST_BYTES, LEAST_SECONDS, MOST_PHASES, MOST_SECONDS, MOST_SPEED};

// The limits of seconds, as wide as lengths are.
const SHORTEST: usize = LEAST_SECONDS as usize;

const LONGEST: usize = MOST_SECONDS as usize;

// The second at which phase k ends.
pub fn end_of(cycle: &[u8], k: usize) -> u16
    requires { 2 + 2 * k < length cycle.now }
    ensures { result ≡ phase_end cycle.now k }
{
    read16(cycle, 1 + 2 * k)
}

// The speed at second k.
pub fn point_of(cycle: &[u8], k: usize) -> u16
    requires { 2 + 2 * phases cycle.now + 2 * k < length cycle.now }
    ensures { result ≡ point cycle.now k }
{
    read16(cycle, 1 + 2 * wide(cycle[0]) + 2 * k)
}

// T.
pub fn seconds_of(cycle: &[u8]) -> u32
    requires { (1 ≤ phases cycle.now) × (2 * phases cycle.now < length cycle.now) }
    ensures { result ≡ seconds cycle.now }
{
    u32::from(end_of(cycle, wide(cycle[0]) - 1))
}

// The second at which phase k starts.
fn start_of(cycle: &[u8], k: usize) -> u16
    requires { 2 * k < length cycle.now }
    ensures { result ≡ phase_start cycle.now k }
{
    if k == 0 { 0 } else { end_of(cycle, k - 1) }
}

fn ends_rise(cycle: &[u8], p: usize) -> bool
    requires { 2 * p < length cycle.now }
    ensures { result ≡ all_below p (rises cycle.now) }
{
    (0..p).all(|k| start_of(cycle, k) < end_of(cycle, k))
}

fn points_are_speeds(cycle: &[u8], n: usize) -> bool
    requires { 1 + 2 * phases cycle.now + 2 * n ≤ length cycle.now }
    ensures { result ≡ all_below n (is_speed cycle.now) }
{
    (0..n).all(|k| point_of(cycle, k) <= MOST_SPEED)
}

// Whether the bytes are a cycle that breaks no rule.
#[tactic(auto, unfolding(rules::specs::Cycle::valid))]
pub fn is_cycle(cycle: &[u8]) -> bool
    ensures { result ≡ valid cycle.now }
{
    if cycle.len() < LEAST_BYTES {
        return false;
    }
    let p = wide(cycle[0]);
    if p < 1 || MOST_PHASES < p {
        return false;
    }
    let t = seconds_of(cycle) as usize;
    if t < SHORTEST || LONGEST < t || cycle.len() != 1 + 2 * p + 2 * (t + 1) {
        return false;
    }
    ends_rise(cycle, p) && points_are_speeds(cycle, t + 1)
}

// The phase in which position p lies.
#[tactic(auto, using(laws::proofs::Sound::sound, laws::proofs::Sound::phase_before, laws::proofs::Sound::phase_least, laws::proofs::Sound::phase_exists))]
pub fn phase_of(cycle: &[u8], p: u32) -> usize
    requires { (valid cycle.now ≡ true) × (p < positions cycle.now) }
    ensures { result ≡ phase_at cycle.now p }
{
    let phases = wide(cycle[0]);
    for k in 0..phases {
        if p < 20 * u32::from(end_of(cycle, k)) {
            return k;
        }
    }
    phases
}
