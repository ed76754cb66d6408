// What feeding a desk and closing it refuses.
use crate::{UNKNOWN, at_tolerances, put, reading_with};
use desk::{Desk, empty};

// No field was taken but so many.
fn with_fields(fields: u64) -> Desk {
    let mut d = empty();
    d.fields = fields;
    d
}

// A run of 64 finished cycles with nine fields, whose cycle has so many bytes.
fn started(cycle: usize) -> Desk {
    Desk {
        started: true,
        opening: at_tolerances(4, cycle),
        reading: reading_with(2561, 0),
        fields: 9,
    }
}

pub fn say_line(rt: HostRuntime, what: &[u8], lines: &[u8], n: usize) {
    put(rt, what);
    put(rt, b": ");
    if lines.len() < n {
        return;
    }
    put(rt, &lines[..n]);
}

fn try_feed(rt: HostRuntime, what: &[u8], desk: Desk) {
    let mut room = [0u8; 4811];
    let mut ledger = [0i64; 576];
    let mut map = [0u64; 750];
    let mut lines = [0u8; 512];
    let x = desk::feed(desk, &UNKNOWN, &mut room, &mut ledger, &mut map);
    match x.outcome {
        Ok(()) => say_line(rt, what, &lines, 0),
        Err(refusal) => {
            let printed = prints::refuse(x.desk, refusal.number(), &mut lines);
            say_line(rt, what, &lines, printed);
        }
    }
}

// With the run's own cycle at the front of the room, and so many bytes left over.
fn try_close(rt: HostRuntime, what: &[u8], desk: Desk, left: usize, room: &[u8], ledger: &[i64]) {
    let map = [0u64; 750];
    let mut lines = [0u8; 512];
    let printed = prints::close(desk, left, room, ledger, &map[..], &mut lines);
    say_line(rt, what, &lines[..], printed);
}

// 1 and 8.
pub fn feeds(rt: HostRuntime) {
    try_feed(
        rt,
        b"feed, 8000009 fields, unknown tag",
        with_fields(8_000_009),
    );
    try_feed(
        rt,
        b"feed, 8000010 fields, unknown tag",
        with_fields(8_000_010),
    );
    try_feed(rt, b"feed, unknown tag", empty());
}

// Before the start: 1 and 15.
pub fn early_closings(rt: HostRuntime) {
    let room = [0u8; 4811];
    let ledger = [0i64; 576];
    try_close(
        rt,
        b"close, 8000010 fields, not started",
        with_fields(8_000_010),
        0,
        &room[..],
        &ledger[..],
    );
    try_close(
        rt,
        b"close, room too short, not started",
        empty(),
        0,
        &room[..4810],
        &ledger[..],
    );
    try_close(
        rt,
        b"close, not started",
        empty(),
        0,
        &room[..],
        &ledger[..],
    );
}

// After it: 1, 2 and 15.
pub fn closings(rt: HostRuntime) {
    // T = 2, one phase, points of 100
    let mut room = [0u8; 4811];
    room[0] = 1;
    room[2] = 2;
    room[4] = 100;
    room[6] = 100;
    room[8] = 100;
    let ledger = [0i64; 576];
    try_close(
        rt,
        b"close, ledger too short, bytes left over",
        started(9),
        5,
        &room[..],
        &ledger[..575],
    );
    try_close(
        rt,
        b"close, other cycle, bytes left over",
        started(8),
        5,
        &room[..],
        &ledger[..],
    );
    try_close(
        rt,
        b"close, bytes left over",
        started(9),
        5,
        &room[..],
        &ledger[..],
    );
}
