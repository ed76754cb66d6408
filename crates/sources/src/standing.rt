// Where a sample stands, as cycle and position.
ghost use Rattle.std.specs.Prelude.{◌≡◌, ◌*◌, ◌/◌, ◌≤◌};
ghost use Rattle.rules.specs.Bench.{most_positions, most_offered};
ghost use Rattle.rules.specs.Course.{row_e};
ghost use Rattle.sources.specs.Sources.{ride_stop, stop_around, row_of};

use crate::Stop;
use rules::limits::ROW_M;

// The row of M, as wide as cycles are.
const AT_M: u32 = ROW_M as u32;

// At place i of the cycles, of n positions each, laid end to end.
pub fn ride_stop(n: u32, i: u32) -> Stop
    requires { 1 ≤ n }
    ensures { result ≡ ride_stop n i }
{
    Stop::At(i / n, i % n)
}

// Sample j, with M of m samples behind the second of four cycles, and E behind them.
pub fn stop_around(m: u32, n: u32, j: u32) -> Stop
    requires { (m ≤ most_offered) × (1 ≤ n) × (n ≤ most_positions) }
    ensures value { result ≡ stop_around m n j }
    ensures cycle_le_row_e { row_of result ≤ row_e }
{
    let two = 2 * n;
    if j < two {
        return ride_stop(n, j);
    }
    if j < two + m {
        return Stop::At(AT_M, j - two);
    }
    if j < 4 * n + m {
        return ride_stop(n, j - m);
    }
    Stop::InE(j - (4 * n + m))
}
