// Whether the numbers of the reader's own are within their limits.
ghost use Rattle.std.specs.Prelude.{◌≡◌};
ghost use Rattle.reading.specs.Answers.{is_fresh, is_reading};

use crate::Reading;
use fields::is_number;
use rules::limits::MOST_PASSED;
use values::are_amounts;

// Whether no sample is offered, where the place is before an own block.
fn is_fresh(place: u32, offered: u32) -> bool
    ensures { result ≡ is_fresh place offered }
{
    2 < place || offered == 0
}

// Whether no number of the reader's own is beyond its limits.
#[tactic(auto, unfolding(crate::specs::Answers::is_reading))]
pub fn is_reading(r: Reading) -> bool
    ensures { result ≡ is_reading r }
{
    r.place <= 5
        && is_fresh(r.place, r.run.progress.offered)
        && r.passed <= MOST_PASSED
        && are_amounts(r.amounts)
        && is_number(&r.vehicle)
}
