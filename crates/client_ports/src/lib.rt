// The ports of a client, for snapshots and for what is published: what each refuses by the frames alone.
#![tactic(auto, unfolding(base::specs::Checks::first_refusal, crate::specs::Readings::end_of, crate::specs::Readings::row_of, crate::specs::Readings::sent_of, crate::specs::Readings::beat_of, crate::specs::Readings::kvpub_of, crate::specs::Readings::published_of))]

mod bare;
pub mod snapshot;
pub mod subscriber;
