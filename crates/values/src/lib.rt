// The values of samples, tolerances and amounts: their limits, and what a run takes of a sample.
#![tactic(auto)]

ghost use Rattle.std.specs.Prelude.{◌≡◌};
ghost use Rattle.rules.specs.Words.{between};
ghost use Rattle.rules.specs.Bench.{is_sample, tolerable, drawn, moment_of, are_stretches};
ghost use Rattle.rules.specs.Closing.{is_transfer_in, is_charge};
ghost use Rattle.laws.specs.Beside.{is_moment, is_transfer};
ghost use Rattle.values.specs.Limits.{are_amounts, is_method};

use rules::limits::{
    LEAST_CURRENT, LEAST_DRAWN, LEAST_TRANSFER, LEAST_TRANSFER_IN, MOST_ALLOWANCE, MOST_CHARGE,
    MOST_CURRENT, MOST_DRAWN, MOST_OFFERED, MOST_SPEED, MOST_SPEED_TOLERANCE, MOST_TIME_TOLERANCE,
    MOST_TRANSFER, MOST_TRANSFER_IN, MOST_VOLTAGE,
};
use rules::{Amounts, Method, Moment, Sample, Stretches, Tolerances};

pub fn is_between(lo: i64, hi: i64, z: i64) -> bool
    ensures { result ≡ between lo hi z }
{
    lo <= z && z <= hi
}

// Whether every value of the sample is within its limits.
#[tactic(auto, unfolding(rules::specs::Bench::is_sample))]
pub fn is_sample(x: Sample) -> bool
    ensures { result ≡ is_sample x }
{
    x.speed <= MOST_SPEED
        && x.voltage <= MOST_VOLTAGE
        && is_between(LEAST_CURRENT, MOST_CURRENT, i64::from(x.current))
}

// Drawn energy.
fn drawn_by(x: Sample) -> i64
    ensures { result ≡ drawn x }
{
    -(i64::from(x.voltage) * i64::from(x.current))
}

// What a run takes of the sample.
pub fn moment_of(x: Sample) -> Moment
    ensures { result ≡ moment_of x }
{
    Moment {
        speed: u64::from(x.speed),
        energy: drawn_by(x),
    }
}

// Whether the tolerances are within their limits.
#[tactic(auto, unfolding(rules::specs::Bench::tolerable))]
pub fn is_tolerable(t: Tolerances) -> bool
    ensures { result ≡ tolerable t }
{
    t.speed <= MOST_SPEED_TOLERANCE
        && t.time <= MOST_TIME_TOLERANCE
        && t.allowance <= MOST_ALLOWANCE
}

// Whether M's length and E's set speed are within their limits.
#[tactic(auto, unfolding(rules::specs::Bench::are_stretches))]
pub fn are_stretches(x: Stretches) -> bool
    ensures { result ≡ are_stretches x }
{
    1 <= x.length && x.length <= MOST_OFFERED && 1 <= x.speed && x.speed <= u32::from(MOST_SPEED)
}

// Whether the method's stretches, if it has any, are within their limits.
pub fn is_method(y: Method) -> bool
    ensures { result ≡ is_method y }
{
    match y {
        Method::Regular => true,
        Method::Shortened(x) => are_stretches(x),
    }
}

// Whether the moment is such as a sample within its limits brings.
#[tactic(auto, unfolding(laws::specs::Beside::is_moment))]
pub fn is_moment(x: Moment) -> bool
    ensures { result ≡ is_moment x }
{
    x.speed <= u64::from(MOST_SPEED) && is_between(LEAST_DRAWN, MOST_DRAWN, x.energy)
}

// Whether a transfer energy is within the limits of field 6.
pub fn is_transfer_in(energy: i64) -> bool
    ensures { result ≡ is_transfer_in energy }
{
    is_between(LEAST_TRANSFER_IN, MOST_TRANSFER_IN, energy)
}

// Whether a transfer energy, doubled, is within its limits.
fn is_transfer(energy: i64) -> bool
    ensures { result ≡ is_transfer energy }
{
    is_between(LEAST_TRANSFER, MOST_TRANSFER, energy)
}

pub fn is_charge(charge: Option<u32>) -> bool
    ensures { result ≡ is_charge charge }
{
    match charge {
        None => true,
        Some(wh) => {
            if wh < 1 {
                return false;
            }
            wh <= MOST_CHARGE
        }
    }
}

// Whether transfer energies and recharge are within their limits.
#[tactic(auto, unfolding(crate::specs::Limits::are_amounts))]
pub fn are_amounts(a: Amounts) -> bool
    ensures { result ≡ are_amounts a }
{
    is_transfer(a.before) && is_transfer(a.after) && is_charge(a.charge)
}
