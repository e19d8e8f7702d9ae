// Datagrams: how values and acknowledgements go over a channel as bytes, and what bytes read as.
#![tactic(auto)]

mod bytes;
pub mod datagram;
pub mod draft;
pub mod fault;
mod listed;
pub mod read;
pub mod theorems;
pub mod write;
