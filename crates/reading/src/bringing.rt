// What a field brings is taken: samples by the judge, an amount, or one block more passed over.
ghost use Rattle.std.specs.Prelude.{◌≡◌, ◌+◌, ◌≤◌};
ghost use Rattle.rules.specs.Bench.{most_passed};
ghost use Rattle.rules.specs.Plan.{plan};
ghost use Rattle.state.specs.State.{left};
ghost use Rattle.reading.specs.Along.{stepped_said, with_passed, with_amounts, with_stretches, bring_taken, content_taken, Brings, Takes};

use crate::{Along, Step, Stepped};
use blocks::take_block;
use contents::Bring;
use rules::{Amounts, Method, Refusal, Stretches, Tolerances};

// "only the passed-over count rises".
fn with_passed(k: Along) -> Along
    requires { k.passed + 1 ≤ most_passed }
    ensures { result ≡ with_passed k }
{
    Along {
        passed: k.passed + 1,
        ..k
    }
}

// An amount is brought, and moves the place in the order.
fn with_amounts(k: Along, place: u32, before: i64, after: i64, charge: Option<u32>) -> Along
    ensures { result ≡ with_amounts k place (record { before = before; after = after; charge = charge }) }
{
    Along {
        place,
        amounts: Amounts {
            before,
            after,
            charge,
        },
        ..k
    }
}

// Stretches are brought, behind the tolerances: the run goes by the shortened method.
fn with_stretches(k: Along, x: Stretches) -> Along
    ensures { result ≡ with_stretches k x }
{
    Along {
        place: 1,
        method: Method::Shortened(x),
        ..k
    }
}

// What a value brings is taken: samples by the judge.
fn bring(
    cycle: &[u8],
    t: Tolerances,
    k: Along,
    ledger: &mut [i64],
    map: &mut [u64],
    v: &[u8],
    b: Bring,
) -> Along
    requires { Brings (plan cycle.now t k.method) (left k ledger.old map.old) v.now b }
    ensures { left result ledger.new map.new
        ≡ bring_taken cycle.now t k ledger.old map.old v.now b }
{
    let taken = k.taken;
    let method = k.method;
    let amounts = k.amounts;
    let charge = amounts.charge;
    match b {
        Bring::Stretch(x) => with_stretches(k, x),
        Bring::Samples => Along {
            place: 3,
            passed: k.passed,
            amounts,
            method,
            taken: take_block(cycle, t, method, taken, ledger, map, &v[21..]),
        },
        Bring::Before(energy) => with_amounts(k, 2, energy, amounts.after, charge),
        Bring::After(energy) => with_amounts(k, 4, amounts.before, energy, charge),
        Bring::Recharge(wh) => { with_amounts(k, 5, amounts.before, amounts.after, Some(wh)) }
    }
}

// A field's content is taken; n is how many bytes the field has.
pub fn take_content(
    cycle: &[u8],
    t: Tolerances,
    k: Along,
    ledger: &mut [i64],
    map: &mut [u64],
    v: &[u8],
    c: Result<Option<Bring>, Refusal>,
    n: usize,
) -> Stepped
    requires { Takes (plan cycle.now t k.method) (left k ledger.old map.old) v.now c }
    ensures { left (stepped_said result) ledger.new map.new
        ≡ content_taken cycle.now t k ledger.old map.old v.now c n }
{
    match c {
        Ok(Some(b)) => Stepped {
            step: Ok(Step::Taken(n)),
            along: bring(cycle, t, k, ledger, map, v, b),
        },
        Ok(None) => Stepped {
            step: Ok(Step::Passed(n)),
            along: with_passed(k),
        },
        Err(refusal) => Stepped {
            step: Err(refusal),
            along: k,
        },
    }
}
