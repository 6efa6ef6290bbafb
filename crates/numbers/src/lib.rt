// Sequence numbers and ticks. They are different kinds of number: each is a tuple struct of its own, and what is asked
// of one is asked by the functions here, so that no other code takes the number out of either.
#![tactic(auto)]

pub mod sequence;
pub mod tick;
