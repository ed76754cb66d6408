// The trace: a record from standard input, its sheet with every number that it came from to standard output.
#![tactic(auto)]

use edges::{Fault, print, tell_fault};
use intake::programs::Memory;
use traced::trace_record;
use tracing::MOST_TRACE;

fn trace(rt: HostRuntime) -> Result<(), Fault> {
    let mut m = Memory::<MOST_TRACE>::new();
    let x = trace_record(
        rt,
        u64::MAX,
        &mut m.buffer,
        &mut m.room,
        &mut m.ledger,
        &mut m.map,
        &mut m.lines,
    );
    print(rt, &m.lines, x.printed?)
}

fn main(rt: HostRuntime) {
    if let Err(fault) = trace(rt) {
        tell_fault(rt, "trace", fault);
    }
}
