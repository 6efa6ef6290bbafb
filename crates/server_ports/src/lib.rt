// The ports of a server, for KVSET and for ICANHAZ: what each refuses by the frames alone.
#![tactic(auto, unfolding(base::specs::Checks::first_refusal, ports::specs::Bodies::update_of))]

pub mod icanhaz;
pub mod kvset;
