// The lines before the cycles, each written from a place on. Each function answers the place after what it wrote.
ghost use Rattle.std.specs.Prelude.{◌≡◌, true, ◌+◌, ◌≤◌, length};
ghost use Rattle.rules.specs.Plan.{plan};
ghost use Rattle.rules.specs.Trace.{plan_lines};
ghost use Rattle.sheet.specs.Overlaid.{Wrote};
ghost use Rattle.sources.specs.Sources.{stop_on};
ghost use Rattle.state.specs.State.{is_run};
ghost use Rattle.tracing.specs.Traced.{stop_shown, stop_for, offered_on};

use reading::Reading;
use rules::End;
use sheet::lines::{end_line, number_line};
use sources::{Stop, stop_on};
use state::Run;
use traces::heading::{fields_line, plan_lines, stop_at_cycle, stop_in_e};

// The vehicle, the method, the cycle and the tolerances.
pub fn opening_lines(out: &mut [u8], at: usize, reading: Reading, cycle: &[u8]) -> usize
    requires { (at + 283 ≤ length out.old) × (9 ≤ length cycle.now) }
    ensures { Wrote 283 out.old at
        (plan_lines reading.vehicle (plan cycle.now reading.run.track.tolerances reading.run.track.method))
        out.new result }
{
    let track = reading.run.track;
    plan_lines(
        out,
        at,
        &reading.vehicle[..],
        track.method,
        cycle,
        track.tolerances,
    )
}

// Where the stopping sample stands: "stop cycle C position P", and in E "stop stretch E".
fn stop_text(out: &mut [u8], at: usize, run: Run) -> usize
    requires { (at + 64 ≤ length out.old) × (is_run run ≡ true) }
    ensures { Wrote 64 out.old at (stop_shown (stop_on run)) out.new result }
{
    match stop_on(run) {
        Stop::InE(_) => stop_in_e(out, at),
        Stop::At(cycle, position) => { stop_at_cycle(out, at, cycle as u64 + 1, position as u64) }
    }
}

// The same of a run that was stopped, and nothing of another.
fn stop_line(out: &mut [u8], at: usize, run: Run) -> usize
    requires { (at + 64 ≤ length out.old) × (is_run run ≡ true) }
    ensures { Wrote 64 out.old at (stop_for run.progress.end (stop_on run)) out.new result }
{
    match run.progress.end {
        End::None => at,
        End::Stop => stop_text(out, at, run),
        End::Limit => at,
    }
}

// Fields and blocks, the samples offered, the end and where it came.
pub fn offered_lines(
    out: &mut [u8],
    at: usize,
    run: Run,
    fields: u64,
    blocks: u64,
    passed: u32,
) -> usize
    requires { (at + 224 ≤ length out.old) × (is_run run ≡ true) }
    ensures { Wrote 224 out.old at (offered_on run fields blocks passed) out.new result }
{
    let progress = run.progress;
    let first = fields_line(out, at, fields, blocks, passed);
    let second = number_line(out, first, b"offered", progress.offered as u64);
    let third = end_line(out, second, progress.end, progress.counted);
    stop_line(out, third, run)
}
