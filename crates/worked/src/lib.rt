// The worked values: proved of the definitions in one theorem, and tried on the code by tests.
#![tactic(auto)]

#[cfg(test)]
mod datagram_tests;
#[cfg(test)]
mod kind_tests;
pub mod theorem;
