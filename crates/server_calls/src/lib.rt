// The calls of a server: what each refuses, makes of the state, writes and answers, as definitions; and what the
// entries give back. The entries themselves are in a crate for each call.
#![tactic(auto)]

use answers::outcome;
use server_state::Header;

// What a call leaves of a server whose arrays are lent.
pub type Outcome = outcome::Outcome<Header>;
