// Writing frames into lent output.
#![tactic(auto)]

pub mod frame;
