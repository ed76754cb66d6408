// What paperwhelk_c exports to C: the bench controller's question, and the sheet of a record.
#![tactic(auto)]

pub mod sheets;
pub mod verdict;
