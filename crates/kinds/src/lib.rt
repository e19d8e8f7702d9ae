// The kinds of value to be had: counter, set, pair, four and two-phase set.
#![tactic(auto)]

pub mod counter;
pub mod four;
mod leaf;
pub mod pair;
pub mod ruled;
pub mod set;
pub mod two_phase;
