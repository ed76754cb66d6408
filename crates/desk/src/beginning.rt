// The fields until the start, one after another, at most four.
ghost use Rattle.std.specs.Prelude.{◌≡◌, ◌+◌, ◌≤◌};
ghost use Rattle.laws.specs.Answers.{answer_said};
ghost use Rattle.opening.specs.Answers.{open_step_said};
ghost use Rattle.desk.specs.Feeding.{fed_said, laid_of, fed_left, opens_as, open_one, open_all, most_fields};

use crate::{Desk, Fed};
use opening::{OpenAnswer, OpenStep};
use reader::{open, reading_of};
use rules::Refusal;

// Nothing was taken.
pub fn stopped(desk: Desk, outcome: Result<(), Refusal>) -> Fed
    ensures { fed_said result ≡ record { outcome = answer_said outcome; used = 0; desk = desk } }
{
    Fed {
        outcome,
        used: 0,
        desk,
    }
}

// The answer to a field until the start.
fn opened(desk: Desk, answer: OpenAnswer<Refusal>) -> Fed
    requires { desk.fields ≤ most_fields + 4 }
    ensures { fed_said result ≡ opens_as desk (open_step_said answer.step) answer.opening }
{
    let opening = answer.opening;
    match answer.step {
        Ok(OpenStep::Taken(n)) => Fed {
            outcome: Ok(()),
            used: n,
            desk: Desk {
                started: false,
                opening,
                fields: desk.fields + 1,
                ..desk
            },
        },
        Ok(OpenStep::Started(n, run)) => Fed {
            outcome: Ok(()),
            used: n,
            desk: Desk {
                started: true,
                opening,
                reading: reading_of(opening, run),
                fields: desk.fields + 1,
            },
        },
        Ok(OpenStep::Incomplete) => stopped(desk, Ok(())),
        Err(refusal) => stopped(desk, Err(refusal)),
    }
}

// The field at the front of the input, until the start.
fn open_one(desk: Desk, input: &[u8], room: &mut [u8], ledger: &mut [i64], map: &mut [u64]) -> Fed
    requires { desk.fields ≤ most_fields + 4 }
    ensures { fed_left result room.new ledger.new map.new
        ≡ open_one (laid_of desk room.old ledger.old map.old) input.now }
{
    let answer = open(desk.opening, input, room, ledger, map);
    opened(desk, answer)
}

// The fields until the start, of which there are at most four.
pub fn open_all(
    desk: Desk,
    input: &[u8],
    room: &mut [u8],
    ledger: &mut [i64],
    map: &mut [u64],
) -> Fed
    requires { desk.fields ≤ most_fields }
    ensures { fed_left result room.new ledger.new map.new
        ≡ open_all (laid_of desk room.old ledger.old map.old) input.now }
{
    let mut on = desk;
    let mut used = 0;
    for _turn in 0..4u32 {
        if on.started {
            return Fed {
                outcome: Ok(()),
                used,
                desk: on,
            };
        }
        let x = open_one(on, &input[used..], room, ledger, map);
        on = x.desk;
        let n = x.used;
        used += n;
        if n == 0 {
            return Fed {
                outcome: x.outcome,
                used,
                desk: on,
            };
        }
    }
    Fed {
        outcome: Ok(()),
        used,
        desk: on,
    }
}
