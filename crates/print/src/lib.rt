// Lines of text, numbers, bytes and answers on standard output, for the programs that show what the other crates do.
// A contract cannot speak of what is written to standard output, so the functions have none.
#![tactic(auto)]

mod line;
mod outcome;

pub use line::{compare, expected, heading, hex, number, text};
pub use outcome::answer;
