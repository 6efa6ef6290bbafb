// Messages as frames in lent bytes: a flag octet, a size, a body (ZMTP 3.0). The crates frame_reader and framing read
// them, frame_writer writes them.
#![tactic(auto)]

pub mod step;
