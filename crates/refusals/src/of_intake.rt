// What taking a record refuses before it reads: a field buffer that is too short for a field.
use crate::of_desk::say_line;
use intake::take_record;

// With so much of a buffer. Standard input is empty.
fn try_take(rt: HostRuntime, what: &[u8], buffer: &mut [u8]) {
    let mut room = [0u8; 4811];
    let mut ledger = [0i64; 576];
    let mut map = [0u64; 750];
    let mut lines = [0u8; 512];
    let x = take_record(
        rt,
        18_446_744_073_709_551_615,
        buffer,
        &mut room,
        &mut ledger,
        &mut map,
        &mut lines,
    );
    say_line(rt, what, &lines, x.printed.unwrap_or(0));
}

pub fn buffers(rt: HostRuntime) {
    let mut short = [0u8; 4813];
    let mut long = [0u8; 4814];
    try_take(rt, b"take, a buffer of 4813 bytes", &mut short);
    try_take(rt, b"take, a buffer of 4814 bytes, no record", &mut long);
}
