// The lines of the trace, byte for byte: each number of the sheet, and every number that it came from.
#![tactic(auto)]

pub mod closing;
pub mod heading;
pub mod parts;
