// The whole ledger.
ghost use Rattle.std.specs.Prelude.{◌≡◌, ◌≤◌, ◌<◌, ◌+◌, ◌*◌, length, pos};
ghost use Rattle.numbers.specs.Lists.{cleared};
ghost use Rattle.rules.specs.Bench.{most_cycles};
ghost use Rattle.rules.specs.Shown.{in_bounds, ledger_numbers};
ghost use Rattle.rules.specs.Words.{all_below};
ghost use Rattle.ledger.specs.Row.{at, bounded};

use rules::limits::{
    LEAST_ENERGY, LEDGER_NUMBERS, MOST_CYCLES, MOST_DISTANCE, MOST_ENERGY, MOST_OUTSIDE,
};
use values::is_between;

// Whether z may stand at place i.
#[tactic(auto, unfolding(rules::specs::Shown::in_bounds))]
fn is_in_bounds(i: usize, z: i64) -> bool
    ensures { result ≡ in_bounds i z }
{
    match i % 9 {
        0..=3 => is_between(LEAST_ENERGY, MOST_ENERGY, z),
        4..=7 => is_between(0, MOST_DISTANCE, z),
        _ => is_between(0, MOST_OUTSIDE, z),
    }
}

// Whether the nine numbers of cycle c are in bounds.
// Row by row, where the rest by 9 is known when this is built; over all 576 numbers at once the test takes several times as long.
fn is_row_bounded(ledger: &[i64], c: usize) -> bool
    requires { (ledger_numbers ≤ length ledger.now) × (c < most_cycles) }
    ensures { result ≡ all_below 9 (λ k. in_bounds (9 * c + k) (at ledger.now (9 * c + k))) }
{
    (0..9).all(|k| is_in_bounds(k, ledger[9 * c + k]))
}

// Whether the ledger is long enough and its 576 numbers are in bounds.
#[tactic(auto, unfolding(crate::specs::Row::bounded))]
pub fn is_bounded(ledger: &[i64]) -> bool
    ensures { result ≡ bounded ledger.now }
{
    LEDGER_NUMBERS <= ledger.len() && (0..MOST_CYCLES).all(|c| is_row_bounded(ledger, c))
}

// The first 576 numbers are zero.
pub fn clear_ledger(ledger: &mut [i64])
    requires { ledger_numbers ≤ length ledger.old }
    ensures { ledger.new ≡ cleared (pos 0) ledger_numbers ledger.old }
{
    ledger[..LEDGER_NUMBERS].fill(0);
}
