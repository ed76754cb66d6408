// What the trace prints of a record: its sheet with every number that it came from, or the refusal with the number of its field.
#![tactic(auto)]

mod behind;
mod offering;
mod parts;

ghost use Rattle.std.specs.Prelude.{◌≡◌, ◌≤◌, leb, length, take};
ghost use Rattle.rules.specs.Words.{unless};
ghost use Rattle.rules.specs.Trace.{trace_text};
ghost use Rattle.sheet.specs.Overlaid.{overlaid, Wrote};
ghost use Rattle.sources.specs.Sources.{trace_on};
ghost use Rattle.desk.specs.Feeding.{laid_of};
ghost use Rattle.tracing.specs.Traced.{most_trace, Traceable, trace_close_text};

use behind::behind_lines;
use desk::{Desk, desk_refusal};
use figures::figures_on;
use offering::{offered_lines, opening_lines};
use parts::part_lines;
use prints::refuse;
use reader::ended;
use reading::Reading;

// How long lines are lent: no trace is longer.
pub const MOST_TRACE: usize = 49_152;

// All lines of a reading and its ledger without 1 or 2, with how many fields are accepted and how many of them are own blocks.
fn trace_lines(
    reading: Reading,
    fields: u64,
    blocks: u64,
    cycle: &[u8],
    ledger: &[i64],
    out: &mut [u8],
) -> usize
    requires { Traceable reading cycle.now ledger.now × (most_trace ≤ length out.old) }
    ensures { Wrote most_trace out.old 0
        (trace_text (trace_on reading cycle.now ledger.now fields blocks))
        out.new result }
{
    let run = reading.run;
    let figures = figures_on(reading, ledger);
    let plan = opening_lines(out, 0, reading, cycle);
    let offered = offered_lines(out, plan, run, fields, blocks, reading.passed);
    let parts = part_lines(out, offered, run, cycle, ledger);
    behind_lines(out, parts, figures, reading.amounts, ledger)
}

// A record that was read to its end, on a desk without 1 or 2, with its cycle in the room.
fn trace_run(desk: Desk, blocks: u64, room: &[u8], ledger: &[i64], out: &mut [u8]) -> usize
    requires { (desk.opening.cycle ≤ length room.now)
        × Traceable desk.reading (take desk.opening.cycle room.now) ledger.now
        × (most_trace ≤ length out.old) }
    ensures { Wrote most_trace out.old 0
        (trace_text (trace_on desk.reading (take desk.opening.cycle room.now) ledger.now desk.fields blocks))
        out.new result }
{
    let size = desk.opening.cycle;
    trace_lines(
        desk.reading,
        desk.fields,
        blocks,
        &room[..size],
        ledger,
        out,
    )
}

// The input ends, with so many own blocks and so many bytes of an unfinished field left over.
pub fn trace_close(
    desk: Desk,
    blocks: u64,
    left: usize,
    room: &[u8],
    ledger: &[i64],
    map: &[u64],
    out: &mut [u8],
) -> usize
    ensures value { result ≡ unless 0 (leb most_trace (length out.old))
        (length (trace_close_text (laid_of desk room.now ledger.now map.now) blocks left)) }
    ensures out_after { out.new
        ≡ unless out.old (leb most_trace (length out.old))
        (overlaid out.old 0 (trace_close_text (laid_of desk room.now ledger.now map.now) blocks left)) }
{
    if out.len() < MOST_TRACE {
        return 0;
    }
    if let Err(refusal) = desk_refusal(desk, room, ledger, map) {
        return refuse(desk, refusal.number(), out);
    }
    match ended(desk.started, left) {
        Err(unfinished) => refuse(desk, unfinished.number(), out),
        Ok(()) => trace_run(desk, blocks, room, ledger, out),
    }
}
