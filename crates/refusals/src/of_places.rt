// What is refused 1 for a reading's place in the order.
use crate::of_state::{ended_run, fresh_run};
use crate::{CYCLE, UNKNOWN, reading_at, try_field, try_figures};
use state::Run;

// An unknown tag, of a run at a place.
fn try_place(rt: HostRuntime, what: &[u8], run: Run, place: u32) {
    try_field(rt, what, reading_at(run, place), &UNKNOWN);
}

// Place 5 is behind a field 7 and the last; places 0 to 2 are before the first own block, so that no sample is offered there.
pub fn places(rt: HostRuntime) {
    let driven = ended_run(2561);
    let fresh = fresh_run();
    try_place(rt, b"read, place 5", driven, 5);
    try_place(rt, b"read, place 6", driven, 6);
    try_place(rt, b"read, place 0, no sample offered", fresh, 0);
    try_place(rt, b"read, place 0, samples offered", driven, 0);
    try_place(rt, b"read, place 2, no sample offered", fresh, 2);
    try_place(rt, b"read, place 2, samples offered", driven, 2);
    try_place(rt, b"read, place 3, samples offered", driven, 3);
    let cycle = &CYCLE;
    let early = reading_at(driven, 2);
    try_figures(rt, b"figures, place 5", reading_at(driven, 5), cycle);
    try_figures(rt, b"figures, place 6", reading_at(driven, 6), cycle);
    try_figures(rt, b"figures, place 2, samples offered", early, cycle);
}
