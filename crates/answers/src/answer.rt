// Answers: a record of the kind, with the number of the state after the call, and of the bytes written.
ghost use Rattle.std.specs.Prelude.{◌≡◌};
ghost use Rattle.answers.specs.Answers.{answer, kind_number, sequence_in, refusal_in};

use crate::refusal;
use crate::refusal::Refusal;
use numbers::sequence::Sequence;

// What came of a call. The number is that of the state that the call returned.
#[derive(Clone, Copy)]
pub enum Kind {
    Refused(Refusal, Sequence),
    Started(Sequence),
    Applied(Sequence),
    Stale(Sequence),
    Outside(Sequence),
    Synced(Sequence),
    Live(Sequence),
    Heard(Sequence),
    Wrote(Sequence),
    Nothing(Sequence),
    Found(Sequence),
    Absent(Sequence),
    Present(Sequence),
    Gone(Sequence),
}

#[derive(Clone, Copy)]
pub struct Answer {
    pub kind: Kind,
    pub written: usize,
}

// The answer of a kind that writes nothing.
pub fn without_output(kind: Kind) -> Answer
    ensures { result ≡ answer kind 0 }
{
    Answer { kind, written: 0 }
}

// The answer of a kind that has written so many bytes.
pub fn with_output(kind: Kind, written: usize) -> Answer
    ensures { result ≡ answer kind written }
{
    Answer { kind, written }
}

// The number by which hosts know a kind.
pub fn kind_number(kind: Kind) -> u64
    ensures { result ≡ kind_number kind }
{
    match kind {
        Kind::Refused(_, _) => 0,
        Kind::Started(_) => 1,
        Kind::Applied(_) => 2,
        Kind::Stale(_) => 3,
        Kind::Outside(_) => 4,
        Kind::Synced(_) => 5,
        Kind::Live(_) => 6,
        Kind::Heard(_) => 7,
        Kind::Wrote(_) => 8,
        Kind::Nothing(_) => 9,
        Kind::Found(_) => 10,
        Kind::Absent(_) => 11,
        Kind::Present(_) => 12,
        Kind::Gone(_) => 13,
    }
}

// The number of the state after the call.
pub fn sequence_in(kind: Kind) -> Sequence
    ensures { result ≡ sequence_in kind }
{
    match kind {
        Kind::Refused(_, n) => n,
        Kind::Started(n)
        | Kind::Applied(n)
        | Kind::Stale(n)
        | Kind::Outside(n)
        | Kind::Synced(n)
        | Kind::Live(n)
        | Kind::Heard(n)
        | Kind::Wrote(n)
        | Kind::Nothing(n)
        | Kind::Found(n)
        | Kind::Absent(n)
        | Kind::Present(n)
        | Kind::Gone(n) => n,
    }
}

// The number of the refusal, or 0.
pub fn refusal_in(kind: Kind) -> u64
    ensures { result ≡ refusal_in kind }
{
    match kind {
        Kind::Refused(r, _) => refusal::refusal_number(r),
        _ => 0,
    }
}
