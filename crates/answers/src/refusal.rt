// The refusals. Their numbers stand here and in their definition alone.
ghost use Rattle.std.specs.Prelude.{◌≡◌};
ghost use Rattle.answers.specs.Refusals.{refusal_number, verdict_number};

// Why a call is refused.
#[derive(Clone, Copy)]
pub enum Refusal {
    // Bytes that are not a run of whole frames up to the last.
    Framing = 1,
    // Another count of frames than the port takes.
    FrameCount = 2,
    // A snapshot request without its word.
    Word = 3,
    // A malformed key.
    BadKey = 4,
    // A malformed subtree, a key outside it, or another one.
    BadSubtree = 5,
    // A sequence of other than eight octets, or out of range.
    BadSequence = 6,
    // A UUID of another length than it may have.
    BadUuid = 7,
    // Properties that are malformed or may not be there.
    BadProperties = 8,
    // A value that is too long, lacks, or may not be there.
    BadValue = 9,
    // A tick out of range, or below the last one.
    BadTick = 10,
    // No room for one row more.
    Full = 11,
    // No number left for one update more.
    Exhausted = 12,
    // A client that waits, or one that is live, and should be the other.
    Phase = 13,
    // Output too short for the answer.
    ShortOutput = 14,
    // An identity of another length than it may have.
    BadIdentity = 15,
    // An ill-formed state.
    IllFormed = 16,
}

// The number of a refusal.
pub fn refusal_number(r: Refusal) -> u64
    ensures { result ≡ refusal_number r }
{
    r as u64
}

// The number of what checks refuse with, or 0.
pub fn verdict_number(v: Result<(), Refusal>) -> u64
    ensures { result ≡ verdict_number v }
{
    match v {
        Ok(()) => 0,
        Err(r) => refusal_number(r),
    }
}
