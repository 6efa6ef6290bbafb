// The properties of an update, and the lifetime among them.
#![tactic(auto)]

pub mod decimal;
pub mod read;
