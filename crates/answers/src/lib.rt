// What a call answers: accepted in some kind, or refused with a number.
#![tactic(auto)]

pub mod answer;
pub mod outcome;
pub mod refusal;
