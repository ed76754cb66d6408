// The nine numbers of a cycle. Each function here is lent that stretch only.
ghost use Rattle.std.specs.Prelude.{◌≡◌, true, ◌+◌, ◌<◌, length, get_or, pos, ◌+ℤ◌};
ghost use Rattle.std.specs.Int.{w64};
ghost use Rattle.std.proofs.Common.{SFits};
ghost use Rattle.numbers.specs.Lists.{plus};
ghost use Rattle.numbers.specs.Whole.{Small};
ghost use Rattle.rules.specs.Bench.{most_phases};
ghost use Rattle.laws.specs.Beside.{is_moment};
ghost use Rattle.ledger.specs.Row.{interval_added, outside_added, is_over, most_held};

use rules::Moment;

// z is added to the number at place k.
fn add_at(row: &mut [i64], k: usize, z: i64)
    requires { (k < length row.old) × SFits w64 (get_or row.old k (pos 0) +ℤ z) }
    ensures { row.new ≡ plus row.old k z }
{
    row[k] += z;
}

// Energy and distance of the interval from sample x to sample y: both ends' products and speeds.
fn energy_between(x: Moment, y: Moment) -> i64
    requires { (is_moment x ≡ true) × (is_moment y ≡ true) }
    ensures { result ≡ x.energy +ℤ y.energy }
{
    x.energy + y.energy
}

fn distance_between(x: Moment, y: Moment) -> i64
    requires { (is_moment x ≡ true) × (is_moment y ≡ true) }
    ensures { result ≡ pos (x.speed + y.speed) }
{
    (x.speed + y.speed).cast_signed()
}

// The interval from sample x to sample y, in its phase of x's cycle.
pub fn add_interval(row: &mut [i64], phase: usize, x: Moment, y: Moment)
    requires { (length row.old ≡ 9) × (phase < most_phases) × Small most_held row.old × (is_moment x ≡ true) × (is_moment y ≡ true) }
    ensures { row.new ≡ interval_added 0 row.old phase x y }
{
    add_at(row, phase, energy_between(x, y));
    add_at(row, 4 + phase, distance_between(x, y));
}

// A judged sample of the cycle, counted where it is outside: whether it brings the outside count above the allowance.
pub fn add_outside(row: &mut [i64], outside: bool, allowance: u32) -> bool
    requires { (length row.old ≡ 9) × Small most_held row.old }
    ensures value { result ≡ is_over 0 row.old outside allowance }
    ensures row_after { row.new ≡ outside_added 0 row.old outside }
{
    if !outside {
        return false;
    }
    add_at(row, 8, 1);
    i64::from(allowance) < row[8]
}
