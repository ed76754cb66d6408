// The closing of a started run: weighted consumption, range and recharge figure, together or refused together.
#![tactic(auto)]

ghost use Rattle.std.specs.Prelude.{◌≡◌, true};
ghost use Rattle.rules.specs.Closing.{least_finished};
ghost use Rattle.values.specs.Limits.{are_amounts};
ghost use Rattle.laws.specs.Answers.{closing_said, refused_by};
ghost use Rattle.ledger.specs.Row.{bounded};
ghost use Rattle.state.specs.State.{is_run};
ghost use Rattle.state.specs.Refusals.{beside_by, cycles_by};
ghost use Rattle.consumption.specs.Figures.{closing_on};
ghost use Rattle.closing.specs.Answers.{grounds, closing_answer};

use rules::limits::{LEAST_FINISHED, LEAST_SHORTENED};
use rules::{Amounts, Closing, Method, Refusal};
use state::{Run, beside_of, cycles_of, ground_refusal};
use values::are_amounts;

// 1 or 2, unless the closing may go on.
fn grounds_refusal(
    run: Run,
    a: Amounts,
    cycle: &[u8],
    ledger: &[i64],
    map: &[u64],
) -> Result<(), Refusal>
    ensures { refused_by result ≡ grounds run a cycle.now ledger.now map.now 0 }
{
    if !are_amounts(a) {
        return Err(Refusal::Ground);
    }
    ground_refusal(run, cycle, ledger, map)
}

// How many finished cycles the method asks for.
fn least_finished(y: Method) -> usize
    ensures { result ≡ least_finished y }
{
    match y {
        Method::Regular => LEAST_FINISHED,
        Method::Shortened(_) => LEAST_SHORTENED,
    }
}

// The closing of a run, amounts and a ledger without 1: 10, 11, 12, 13, or the figures together.
pub fn close_on(run: Run, amounts: Amounts, ledger: &[i64]) -> Result<Closing, u32>
    requires { (is_run run ≡ true) × (are_amounts amounts ≡ true) × (bounded ledger.now ≡ true) }
    ensures { closing_said result
        ≡ closing_said (closing_on ledger.now (beside_by run) (least_finished run.track.method) (cycles_by run) amounts) }
{
    let n = cycles_of(run) as usize;
    let method = run.track.method;
    consumption::close(ledger, beside_of(run), least_finished(method), n, amounts)
}

// The closing: 1, 2, 10, 11, 12, 13, or weighted consumption and range with the recharge figure, absent, or its refusal 14, 12.
pub fn close(
    run: Run,
    amounts: Amounts,
    cycle: &[u8],
    ledger: &[i64],
    map: &[u64],
) -> Result<Closing, u32>
    ensures { closing_said result ≡ closing_answer run amounts cycle.now ledger.now map.now }
{
    if let Err(refusal) = grounds_refusal(run, amounts, cycle, ledger, map) {
        return Err(refusal.number());
    }
    close_on(run, amounts, ledger)
}
