// Headers and answers as arrays of words, which a host of any language can lend.
#![tactic(auto)]

pub mod answer;
pub mod client;
pub mod server;
pub mod words;
