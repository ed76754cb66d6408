// The lines of a cycle and of tolerances, each written from a place on. Each function answers the place after what it wrote.
ghost use Rattle.std.specs.Prelude.{◌≡◌, cond, ◌+◌, ◌-◌, ◌≤◌, suc, ltb, length};
ghost use Rattle.rules.specs.Listing.{in_turn, phases_in, end_of_phase, cycle_line, tolerances_line};
ghost use Rattle.sheet.specs.Overlaid.{Wrote};

use cycle::end_of;
use numbers::wide;
use rules::Tolerances;
use rules::limits::MOST_PHASES;
use sheet::text::{put_number, put_text};

// How many phases, four at most.
fn phases_in(cycle: &[u8]) -> usize
    requires { 9 ≤ length cycle.now }
    ensures { (result ≡ phases_in cycle.now) × (result ≤ 4) }
{
    wide(cycle[0]).min(MOST_PHASES)
}

// The byte behind the end of phase k of n: a newline behind the last.
fn byte_behind(k: usize, n: usize) -> u8
    requires { k ≤ 4 }
    ensures { result ≡ cond (ltb (suc k) n) 32 10 }
{
    if k + 1 < n {
        return 32;
    }
    10
}

// The ends of the phases, n in all.
fn put_ends(out: &mut [u8], at: usize, cycle: &[u8], n: usize) -> usize
    requires { (at + 84 ≤ length out.old) × (9 ≤ length cycle.now) × (n ≡ phases_in cycle.now) × (n ≤ 4) }
    ensures { Wrote 84 out.old at (in_turn (end_of_phase cycle.now) n) out.new result }
{
    let mut next = at;
    for k in 0..n {
        let end = end_of(cycle, k) as u64;
        next = put_number(out, next, end, byte_behind(k, n));
    }
    next
}

// "cycle T phases E1 [E2 [E3 [E4]]]".
pub fn cycle_line(out: &mut [u8], at: usize, cycle: &[u8]) -> usize
    requires { (at + 118 ≤ length out.old) × (9 ≤ length cycle.now) }
    ensures { Wrote 118 out.old at (cycle_line cycle.now) out.new result }
{
    let n = phases_in(cycle);
    let seconds = end_of(cycle, n.saturating_sub(1)) as u64;
    let word = put_text(out, at, b"cycle", 32);
    let next = put_number(out, word, seconds, 32);
    let ends = put_text(out, next, b"phases", 32);
    put_ends(out, ends, cycle, n)
}

// "tolerances S W A".
pub fn tolerances_line(out: &mut [u8], at: usize, t: Tolerances) -> usize
    requires { at + 74 ≤ length out.old }
    ensures { Wrote 74 out.old at (tolerances_line t) out.new result }
{
    let word = put_text(out, at, b"tolerances", 32);
    let speed = put_number(out, word, t.speed as u64, 32);
    let time = put_number(out, speed, t.time as u64, 32);
    put_number(out, time, t.allowance as u64, 10)
}
