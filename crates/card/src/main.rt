// The rows of the test card that a program runs: records from standard input, each behind its length (4 bytes), and their sheets, each with an empty
// line behind it.
#![tactic(auto)]

use edges::{Fault, print, tell_fault};
use intake::programs::{Memory, each_record};
use intake::{skip, take_record};
use sheet::MOST_SHEET;

// The sheet of a record of so many bytes.
fn next_sheet(rt: HostRuntime, length: u64, m: &mut Memory<MOST_SHEET>) -> Result<(), Fault> {
    let x = take_record(
        rt,
        length,
        &mut m.buffer,
        &mut m.room,
        &mut m.ledger,
        &mut m.map,
        &mut m.lines,
    );
    let printed = x.printed?;
    skip(rt, x.left, &mut m.buffer);
    print(rt, &m.lines, printed)?;
    print(rt, b"\n", 1)
}

fn main(rt: HostRuntime) {
    let mut m = Memory::<MOST_SHEET>::new();
    if let Err(fault) = each_record(rt, |length| next_sheet(rt, length, &mut m)) {
        tell_fault(rt, "card", fault);
    }
}
