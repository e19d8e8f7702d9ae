// A run that the history theorem speaks of, over the counter and the queue: proved of the definitions.
#![tactic(auto)]

pub mod theorem;
