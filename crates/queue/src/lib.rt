// A channel in memory that the caller lends: datagrams wait in the order of their puts.
#![tactic(auto)]

mod packed;
pub mod queue;
