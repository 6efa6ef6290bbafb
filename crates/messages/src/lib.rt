// The messages of the protocol, as fields: their writers, and the identity frame in front of them.
#![tactic(auto)]

pub mod identity;
pub mod write;

// How many frames an update and its like has, and a snapshot request behind its identity.
pub const FRAMES: usize = 5;

pub const REQUEST_FRAMES: usize = 3;

// The frames of a snapshot request.
pub const IDENTITY: usize = 0;

pub const WORD: usize = 1;

pub const SUBTREE: usize = 2;

// The frames of a message with five of them.
pub const HEAD: usize = 0;

pub const SEQUENCE: usize = 1;

pub const UUID: usize = 2;

pub const PROPERTIES: usize = 3;

pub const VALUE: usize = 4;
