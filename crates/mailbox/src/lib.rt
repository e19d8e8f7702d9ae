// A channel that keeps one datagram a receiver, in memory that its caller lends.
#![tactic(auto)]

pub mod mailbox;
