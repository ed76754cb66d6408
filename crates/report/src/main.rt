// The report: a record from standard input, its sheet to standard output.
#![tactic(auto)]

use edges::{Fault, print, tell_fault};
use intake::programs::Memory;
use intake::take_record;
use sheet::MOST_SHEET;

fn report(rt: HostRuntime) -> Result<(), Fault> {
    let mut m = Memory::<MOST_SHEET>::new();
    let x = take_record(
        rt,
        u64::MAX,
        &mut m.buffer,
        &mut m.room,
        &mut m.ledger,
        &mut m.map,
        &mut m.lines,
    );
    print(rt, &m.lines, x.printed?)
}

fn main(rt: HostRuntime) {
    if let Err(fault) = report(rt) {
        tell_fault(rt, "report", fault);
    }
}
