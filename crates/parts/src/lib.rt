// Messages as the parts that a socket carries: built from parts that arrive one by one, and split into those that are
// sent.
#![tactic(auto)]

pub mod build;
pub mod lent;
pub mod walk;
