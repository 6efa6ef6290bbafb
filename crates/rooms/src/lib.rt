// How much room a message needs that is built for a port: with it the port takes the message exactly if it takes the
// parts.
#![tactic(auto)]

// A KVSET at a server, and what is published at a client.
pub const UPDATE_ROOM: usize = 521;

// An ICANHAZ at a server, with the identity in front.
pub const REQUEST_ROOM: usize = 365;

// A message of a snapshot at a client, without the identity.
pub const SNAPSHOT_ROOM: usize = 377;
