// What a replicated value is: the trait `Kind` with the laws that every kind of value keeps, and what follows from
// those laws alone, written and proved once for all kinds.
#![tactic(auto)]

pub mod fault;
pub mod iter;
pub mod kind;
pub mod narrow;
pub mod part;
pub mod refusal;
pub mod show;
pub mod walks;
