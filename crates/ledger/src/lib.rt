// The lent ledger of a run: 64 cycles of nine numbers.
#![tactic(auto)]

pub mod row;
pub mod totals;
pub mod whole;
