// The three parts of a sheet, each written from a place on. Each function answers the place after what it wrote.
ghost use Rattle.std.specs.Prelude.{◌+◌, ◌≤◌, length};
ghost use Rattle.sheet.specs.Overlaid.{Wrote};
ghost use Rattle.rules.specs.Text.{head_lines, count_lines, closed_lines, closing_lines};

use crate::lines::{end_line, number_line, recharge_line, refused_line, signed_line, text_line};
use rules::{Closing, Figures};

pub fn head_lines(out: &mut [u8], at: usize, f: Figures) -> usize
    requires { at + 104 ≤ length out.old }
    ensures { Wrote 104 out.old at (head_lines f) out.new result }
{
    let run = text_line(out, at, b"run", &f.vehicle[..]);
    let next = end_line(out, run, f.end, f.counted);
    number_line(out, next, b"cycles", f.cycles as u64)
}

pub fn count_lines(out: &mut [u8], at: usize, f: Figures) -> usize
    requires { at + 96 ≤ length out.old }
    ensures { Wrote 96 out.old at (count_lines f) out.new result }
{
    let outside = signed_line(out, at, b"outside", f.outside);
    let passed = number_line(out, outside, b"passed", f.passed as u64);
    signed_line(out, passed, b"drawn", f.drawn)
}

// The three figures of one closing.
fn closed_lines(out: &mut [u8], at: usize, x: Closing) -> usize
    requires { at + 96 ≤ length out.old }
    ensures { Wrote 96 out.old at (closed_lines x) out.new result }
{
    let first = number_line(out, at, b"weighted", x.weighted);
    let second = number_line(out, first, b"range", x.range);
    recharge_line(out, second, x.recharge)
}

pub fn closing_lines(out: &mut [u8], at: usize, closing: Result<Closing, u32>) -> usize
    requires { at + 96 ≤ length out.old }
    ensures { Wrote 96 out.old at (closing_lines closing) out.new result }
{
    match closing {
        Ok(x) => closed_lines(out, at, x),
        Err(n) => refused_line(out, at, n),
    }
}
