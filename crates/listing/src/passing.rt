// Where the list stands behind the fields of an input, without their lines.
ghost use Rattle.std.specs.Prelude.{MatchOption, ◌≡◌, length};
ghost use Rattle.rules.specs.Table.{tags};
ghost use Rattle.rules.specs.Front.{front_of};
ghost use Rattle.rules.specs.Listing.{list_from};
ghost use Rattle.listing.specs.Lines.{Counts, front_used, Takes};

use crate::spots::spot_after;
use fields::front_of;
use rules::Spot;

// Where the list stands after a field, and how many bytes the field takes.
#[derive(Clone, Copy, Debug, PartialEq, Eq)]
struct Passed {
    spot: Spot,
    used: usize,
}

// The field at the front of the input, if a whole one is there.
// Stays: beside `list_one`, which needs room for its line; what both do would hand out tag and value, with a contract of its own.
fn pass_one(spot: Spot, input: &[u8]) -> Option<Passed>
    requires { Counts spot (length input.now) }
    ensures { MatchOption result (front_used (front_of tags input.now) ≡ 0) (λ x. Takes spot (front_of tags input.now) x.spot x.used) }
{
    let Ok(Some(front)) = front_of(input) else {
        return None;
    };
    Some(Passed {
        spot: spot_after(spot, front.tag, &input[3..3 + front.size]),
        used: 3 + front.size,
    })
}

// The whole fields of the input, one after another.
// Stays: beside `list_fields`, whose promise is about the lines too, and asks room for them.
pub fn pass_fields(spot: Spot, input: &[u8]) -> Spot
    requires { Counts spot (length input.now) }
    ensures { result ≡ (list_from spot input.now).spot }
{
    let mut on = spot;
    let mut used = 0;
    while let Some(x) = pass_one(on, &input[used..]) {
        on = x.spot;
        used += x.used;
    }
    on
}
