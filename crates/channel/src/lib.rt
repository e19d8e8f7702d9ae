// How datagrams travel: the trait `Channel` with the meaning that every channel keeps, two layers over any channel, and
// the sending of a sealed datagram.
#![tactic(auto)]

pub mod channel;
pub mod fault;
pub mod holding;
pub mod losing;
pub mod memory;
mod pattern;
pub mod send;
