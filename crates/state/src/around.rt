// The sample last judged; and where M of m samples stands behind the second of four cycles, of n positions each: which are finished, and which stands last.
ghost use Rattle.std.specs.Prelude.{◌≡◌, ◌-◌, ◌≤◌};
ghost use Rattle.rules.specs.Bench.{most_positions, most_offered};
ghost use Rattle.state.specs.Refusals.{finished_around, judged_by, last_around};

use crate::Progress;
use numbers::{less, smaller};
use rules::End;

// The sample last judged, and 0 before the first.
pub fn last_judged(progress: Progress) -> u32
    ensures { result ≡ judged_by progress.end progress.counted - 1 }
{
    match progress.end {
        End::Stop => progress.counted,
        End::None | End::Limit => less(progress.counted, 1),
    }
}

// How many cycles of n positions are finished where so many intervals are closed, with M of m samples behind the second.
pub fn finished_around(closed: u32, n: u32, m: u32) -> u32
    requires { (1 ≤ n) × (n ≤ most_positions) × (m ≤ most_offered) }
    ensures { result ≡ finished_around closed n m }
{
    if closed < 2 * n {
        return closed / n;
    }
    if closed < 2 * n + m {
        return 2;
    }
    smaller(4, (closed - m) / n)
}

// The cycle, of n positions each, that stands last among the samples up to sample j, with M of m samples behind the second.
// Stays: beside `finished_around`: the same places of the course, but each asks something else of them.
pub fn last_around(j: u32, n: u32, m: u32) -> u32
    requires { (1 ≤ n) × (n ≤ most_positions) × (m ≤ most_offered) }
    ensures { result ≡ last_around j n m }
{
    if j < 2 * n {
        return j / n;
    }
    if j < 2 * n + m {
        return 1;
    }
    if j < 4 * n + m {
        return (j - m) / n;
    }
    3
}
