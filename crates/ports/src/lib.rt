// What the ports of both ends share: the framing of a message, what an update may hold, the tick of a call; and the two
// value entries.
#![tactic(auto, unfolding(base::specs::Checks::first_refusal, crate::specs::Bodies::update_of))]

pub mod frame_count;
pub mod time;
pub mod update;
pub mod value;
