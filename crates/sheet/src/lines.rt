// Lines, each written from a place on. Each function answers the place after what it wrote.
// A line takes at most 32 bytes, the one with the end 40.
ghost use Rattle.std.specs.Prelude.{◌+◌, ◌≤◌, length};
ghost use Rattle.sheet.specs.Overlaid.{Wrote};
ghost use Rattle.rules.specs.Text.{digits, signed, line, end_line, refused_line, recharge_line};

use super::text::{put_number, put_signed, put_text};
use rules::End;

// Stays: this and the next two are three, since a trait of what a line holds, with its text and its most bytes as ghost members, and three impls, would be
// longer than the two lines of each; `put_text`, `put_number` and `put_signed` have bounds of their own (17, 20 and 21 bytes).
pub fn text_line(out: &mut [u8], at: usize, word: &[u8], value: &[u8]) -> usize
    requires { (at + 32 ≤ length out.old) × (length word.now ≤ 8) × (length value.now ≤ 17) }
    ensures { Wrote 32 out.old at (line word.now value.now) out.new result }
{
    let next = put_text(out, at, word, 32);
    put_text(out, next, value, 10)
}

pub fn number_line(out: &mut [u8], at: usize, word: &[u8], n: u64) -> usize
    requires { (at + 32 ≤ length out.old) × (length word.now ≤ 8) }
    ensures { Wrote 32 out.old at (line word.now (digits n)) out.new result }
{
    let next = put_text(out, at, word, 32);
    put_number(out, next, n, 10)
}

pub fn signed_line(out: &mut [u8], at: usize, word: &[u8], z: i64) -> usize
    requires { (at + 32 ≤ length out.old) × (length word.now ≤ 8) }
    ensures { Wrote 32 out.old at (line word.now (signed z)) out.new result }
{
    let next = put_text(out, at, word, 32);
    put_signed(out, next, z, 10)
}

pub fn end_line(out: &mut [u8], at: usize, end: End, counted: u32) -> usize
    requires { at + 40 ≤ length out.old }
    ensures { Wrote 40 out.old at (end_line end counted) out.new result }
{
    let n = counted as u64;
    let next = put_text(out, at, b"end", 32);
    match end {
        End::None => number_line(out, next, b"none", n),
        End::Stop => number_line(out, next, b"stop", n),
        End::Limit => number_line(out, next, b"limit", n),
    }
}

// `refused N`, after which no line follows.
pub fn refused_line(out: &mut [u8], at: usize, n: u32) -> usize
    requires { at + 32 ≤ length out.old }
    ensures { Wrote 32 out.old at (refused_line n) out.new result }
{
    number_line(out, at, b"refused", n as u64)
}

pub fn recharge_line(out: &mut [u8], at: usize, figure: Result<Option<u64>, u32>) -> usize
    requires { at + 32 ≤ length out.old }
    ensures { Wrote 32 out.old at (recharge_line figure) out.new result }
{
    match figure {
        Ok(Some(n)) => number_line(out, at, b"ac", n),
        Ok(None) => text_line(out, at, b"ac", b"-"),
        Err(n) => refused_line(out, at, n),
    }
}
