// The library as a C, C++ or Rust host links it: every entry, exported under a name of its own. Bytes are a pointer and
// a length. A state is lent, and its header and the answer are lent as arrays of words: no struct is passed either way.
// So it is the C interface that needs a parameter for each part of a state, a number for a Sequence, a Tick or a bool,
// and 0 where Rattle has a None.
// The header include/chp.h wraps these functions for hosts.
#![tactic(auto)]

pub mod bytes;
pub mod client;
pub mod layout;
pub mod name_tests;
pub mod server;
pub mod socket_parts;
