// Text that the programs read: standard input, lines of fields with bars between them, numbers in decimal, bytes as
// \xNN, and messages as lines of their frames.
#![tactic(auto)]

pub mod input;
pub mod line;
pub mod message;
pub mod text;
