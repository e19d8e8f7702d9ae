// The history of a group: what its calls do, the book that is held against it, and the theorem that the two agree after every
// list of calls. All of it is definitions and proofs; the code is the types of answers and of what a ring keeps, and the functions that carry the theorem.
#![tactic(auto)]

pub mod answers;
pub mod kept;
pub mod theorem;
