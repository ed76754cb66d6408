// The field list: a record from standard input, a line for each of its fields to standard output.
#![tactic(auto)]

use edges::{Fault, print, tell_fault};
use intake::programs::Memory;
use walk::whole::{MOST_LINES, list_record};

fn list(rt: HostRuntime) -> Result<(), Fault> {
    let mut m = Memory::<MOST_LINES>::new();
    let x = list_record(
        rt,
        u64::MAX,
        &mut m.buffer,
        &mut m.room,
        &mut m.ledger,
        &mut m.map,
        &mut m.lines,
    );
    print(rt, &m.lines, x.printed?)
}

fn main(rt: HostRuntime) {
    if let Err(fault) = list(rt) {
        tell_fault(rt, "fieldlist", fault);
    }
}
