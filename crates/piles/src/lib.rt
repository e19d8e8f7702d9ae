// Channels in use: code that works over any channel, and tests of every channel and of piles of them.
#![tactic(auto)]

pub mod bridge;
#[cfg(test)]
mod calls;
#[cfg(test)]
mod layer_tests;
#[cfg(test)]
mod mailbox_tests;
#[cfg(test)]
mod pile_tests;
#[cfg(test)]
mod queue_tests;
#[cfg(test)]
mod send_tests;
