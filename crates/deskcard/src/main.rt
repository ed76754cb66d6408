// The desk's programs on many records: from standard input the letter t or f, and records, each behind its length (4 bytes); of each its trace, or its
// field list, with an empty line behind it.
#![tactic(auto)]

use edges::{Fault, fill_whole, print, tell, tell_fault};
use intake::programs::{Memory, each_record};
use intake::skip;
use traced::trace_record;
use walk::whole::{MOST_LINES, list_record};

// What was not read of a record is skipped, and its text goes out.
fn put_out(
    rt: HostRuntime,
    printed: Result<usize, Fault>,
    left: u64,
    m: &mut Memory<MOST_LINES>,
) -> Result<(), Fault> {
    skip(rt, left, &mut m.buffer);
    print(rt, &m.lines, printed?)?;
    print(rt, b"\n", 1)
}

// The trace of a record of so many bytes.
fn next_trace(rt: HostRuntime, length: u64, m: &mut Memory<MOST_LINES>) -> Result<(), Fault> {
    let x = trace_record(
        rt,
        length,
        &mut m.buffer,
        &mut m.room,
        &mut m.ledger,
        &mut m.map,
        &mut m.lines,
    );
    put_out(rt, x.printed, x.left, m)
}

// Its field list.
fn next_list(rt: HostRuntime, length: u64, m: &mut Memory<MOST_LINES>) -> Result<(), Fault> {
    let x = list_record(
        rt,
        length,
        &mut m.buffer,
        &mut m.room,
        &mut m.ledger,
        &mut m.map,
        &mut m.lines,
    );
    put_out(rt, x.printed, x.left, m)
}

// The one or the other of every record, by the letter.
fn each_text(rt: HostRuntime, letter: u8) -> Result<(), Fault> {
    let mut m = Memory::<MOST_LINES>::new();
    match letter {
        b't' => each_record(rt, |length| next_trace(rt, length, &mut m)),
        _ => each_record(rt, |length| next_list(rt, length, &mut m)),
    }
}

fn main(rt: HostRuntime) {
    let mut letter = [0u8; 1];
    if !fill_whole(rt, &mut letter) {
        tell(rt, b"deskcard: there is no letter\n");
        return;
    }
    if let Err(fault) = each_text(rt, letter[0]) {
        tell_fault(rt, "deskcard", fault);
        // a text that was not read is lost too
        if fault == Fault::Input {
            tell_fault(rt, "deskcard", Fault::Output);
        }
    }
}
