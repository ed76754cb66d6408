// The lines behind the cycles, each written from a place on. Each function answers the place after what it wrote.
ghost use Rattle.std.specs.Prelude.{◌+◌, ◌≤◌, length};
ghost use Rattle.rules.specs.Trace.{amounts_line, sum_text, weight_text, charge_line};
ghost use Rattle.sheet.specs.Overlaid.{Wrote};
ghost use Rattle.traces.specs.Bounds.{most_place};

use rules::Amounts;
use sheet::lines::{number_line, signed_line, text_line};
use sheet::text::{put_number, put_signed, put_text};

// "transfer before X after Y".
fn amounts_line(out: &mut [u8], at: usize, a: Amounts) -> usize
    requires { at + 70 ≤ length out.old }
    ensures { Wrote 70 out.old at (amounts_line a) out.new result }
{
    let word = put_text(out, at, b"transfer", 32);
    let name = put_text(out, word, b"before", 32);
    let next = put_signed(out, name, a.before, 32);
    signed_line(out, next, b"after", a.after)
}

// The lines from "cycles" to "whole".
pub fn sum_lines(
    out: &mut [u8],
    at: usize,
    cycles: u32,
    outside: i64,
    drawn: i64,
    amounts: Amounts,
    whole: i64,
) -> usize
    requires { at + 198 ≤ length out.old }
    ensures { Wrote 198 out.old at (sum_text cycles outside drawn amounts whole) out.new result }
{
    let first = number_line(out, at, b"cycles", cycles as u64);
    let second = signed_line(out, first, b"outside", outside);
    let third = signed_line(out, second, b"drawn", drawn);
    let fourth = amounts_line(out, third, amounts);
    signed_line(out, fourth, b"whole", whole)
}

// "weight C NUM DEN"; c counts from 0.
pub fn weight_line(out: &mut [u8], at: usize, c: u64, num: u64, den: u64) -> usize
    requires { (at + 70 ≤ length out.old) × (c ≤ most_place) }
    ensures { Wrote 70 out.old at (weight_text c num den) out.new result }
{
    let word = put_text(out, at, b"weight", 32);
    let cycle = put_number(out, word, c + 1, 32);
    let next = put_number(out, cycle, num, 32);
    put_number(out, next, den, 10)
}

// "recharge A | recharge -".
pub fn charge_line(out: &mut [u8], at: usize, charge: Option<u32>) -> usize
    requires { at + 32 ≤ length out.old }
    ensures { Wrote 32 out.old at (charge_line charge) out.new result }
{
    match charge {
        None => text_line(out, at, b"recharge", b"-"),
        Some(a) => number_line(out, at, b"recharge", a as u64),
    }
}
