// What the body of a single frame may be: a UUID, an identity and a value by their lengths, and the words of the
// protocol.
#![tactic(auto)]

pub mod lengths;
pub mod words;
