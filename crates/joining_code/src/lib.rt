// The code runs as the theorem on joining supposes: what a state holds after the calls of a list is what the list's run
// comes to.
#![tactic(auto)]

pub mod session;
