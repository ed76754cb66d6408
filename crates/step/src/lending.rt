// What a sample of a cycle leaves in ledger and map, which are lent on.
ghost use Rattle.std.specs.Prelude.{◌≡◌, true, ℕ, ◌*◌, ◌<◌, ◌≤◌, length};
ghost use Rattle.numbers.specs.Whole.{Sized};
ghost use Rattle.laws.specs.Beside.{is_moment};
ghost use Rattle.rules.specs.Bench.{most_positions, most_phases, most_cycles};
ghost use Rattle.rules.specs.Shown.{map_words, ledger_numbers};
ghost use Rattle.map.specs.Map.{opened, marked_if};
ghost use Rattle.ledger.specs.Row.{at, is_over, interval_added, outside_added, most_held};

use ledger::row::{add_interval, add_outside};
use map::{mark_if, open_map};
use rules::Moment;

// The map after a judged sample at position p.
pub fn mark_sample(map: &mut [u64], p: usize, outside: bool)
    requires { (p < most_positions) × (map_words ≤ length map.old) }
    ensures { map.new ≡ marked_if (opened map.old p) p outside }
{
    open_map(map, p);
    mark_if(map, p, outside);
}

// The nine numbers of a cycle are lent on: the interval from sample x to sample y is of this row and phase.
pub fn add_in_cycle(ledger: &mut [i64], row: usize, phase: usize, x: Moment, y: Moment)
    requires ledger_numbers_in_bounds { (ledger_numbers ≤ length ledger.old)
        × (row < most_cycles)
        × (phase < most_phases)
        × (is_moment x ≡ true)
        × (is_moment y ≡ true) }
    requires by_index { (i : ℕ) → i < ledger_numbers → Sized most_held (at ledger.old i) }
    ensures { ledger.new ≡ interval_added (9 * row) ledger.old phase x y }
{
    let from = 9 * row;
    let upto = from + 9;
    add_interval(&mut ledger[from..upto], phase, x, y);
}

// The nine numbers of a cycle are lent on: whether a sample of this row brings the outside count above the allowance.
pub fn count_in_cycle(ledger: &mut [i64], row: usize, outside: bool, allowance: u32) -> bool
    requires ledger_numbers_in_bounds { (ledger_numbers ≤ length ledger.old) × (row < most_cycles) }
    requires by_index { (i : ℕ) → i < ledger_numbers → Sized most_held (at ledger.old i) }
    ensures value { result ≡ is_over (9 * row) ledger.old outside allowance }
    ensures ledger_after { ledger.new ≡ outside_added (9 * row) ledger.old outside }
{
    let from = 9 * row;
    let upto = from + 9;
    add_outside(&mut ledger[from..upto], outside, allowance)
}
