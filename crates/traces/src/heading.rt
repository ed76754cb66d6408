// The lines before the cycles, each written from a place on. Each function answers the place after what it wrote.
ghost use Rattle.std.specs.Prelude.{◌++◌, ◌+◌, ◌≤◌, length};
ghost use Rattle.rules.specs.Words.{spell};
ghost use Rattle.rules.specs.Plan.{plan};
ghost use Rattle.rules.specs.Text.{digits, spaced, ended, line};
ghost use Rattle.rules.specs.Trace.{method_line, fields_line, plan_lines};
ghost use Rattle.sheet.specs.Overlaid.{Wrote};

use listing::lines::{cycle_line, tolerances_line};
use rules::{Method, Stretches, Tolerances};
use sheet::lines::{number_line, text_line};
use sheet::text::{put_number, put_text};

// "method shortened M U".
fn shortened_line(out: &mut [u8], at: usize, x: Stretches) -> usize
    requires { at + 59 ≤ length out.old }
    ensures { Wrote 59 out.old at
        (spaced (spell "method") ++ spaced (spell "shortened") ++ spaced (digits x.length) ++ ended (digits x.speed))
        out.new result }
{
    let word = put_text(out, at, b"method", 32);
    let name = put_text(out, word, b"shortened", 32);
    let next = put_number(out, name, x.length as u64, 32);
    put_number(out, next, x.speed as u64, 10)
}

// "method regular | method shortened M U".
pub fn method_line(out: &mut [u8], at: usize, method: Method) -> usize
    requires { at + 59 ≤ length out.old }
    ensures { Wrote 59 out.old at (method_line method) out.new result }
{
    match method {
        Method::Regular => text_line(out, at, b"method", b"regular"),
        Method::Shortened(x) => shortened_line(out, at, x),
    }
}

// "fields F blocks B passed P".
pub fn fields_line(out: &mut [u8], at: usize, fields: u64, blocks: u64, passed: u32) -> usize
    requires { at + 88 ≤ length out.old }
    ensures { Wrote 88 out.old at (fields_line fields blocks passed) out.new result }
{
    let word = put_text(out, at, b"fields", 32);
    let next = put_number(out, word, fields, 32);
    let name = put_text(out, next, b"blocks", 32);
    let last = put_number(out, name, blocks, 32);
    number_line(out, last, b"passed", passed as u64)
}

// "stop cycle C position P": the cycle counts from 1, the position from 0.
pub fn stop_at_cycle(out: &mut [u8], at: usize, cycle: u64, position: u64) -> usize
    requires { at + 64 ≤ length out.old }
    ensures { Wrote 64 out.old at
        (spaced (spell "stop") ++ spaced (spell "cycle") ++ spaced (digits cycle) ++ line (spell "position") (digits position))
        out.new result }
{
    let word = put_text(out, at, b"stop", 32);
    let name = put_text(out, word, b"cycle", 32);
    let next = put_number(out, name, cycle, 32);
    number_line(out, next, b"position", position)
}

// "stop stretch E".
pub fn stop_in_e(out: &mut [u8], at: usize) -> usize
    requires { at + 37 ≤ length out.old }
    ensures { Wrote 37 out.old at (spaced (spell "stop") ++ line (spell "stretch") (spell "E")) out.new result }
{
    let next = put_text(out, at, b"stop", 32);
    text_line(out, next, b"stretch", b"E")
}

// The vehicle, the method, the cycle and the tolerances, a line each.
pub fn plan_lines(
    out: &mut [u8],
    at: usize,
    vehicle: &[u8],
    method: Method,
    cycle: &[u8],
    tolerances: Tolerances,
) -> usize
    requires { (at + 283 ≤ length out.old) × (length vehicle.now ≤ 17) × (9 ≤ length cycle.now) }
    ensures { Wrote 283 out.old at
        (plan_lines vehicle.now (plan cycle.now tolerances method))
        out.new result }
{
    let run = text_line(out, at, b"run", vehicle);
    let driven = method_line(out, run, method);
    let next = cycle_line(out, driven, cycle);
    tolerances_line(out, next, tolerances)
}
