// What a call leaves, and what it gives back: one shape for a server and for a client, which differ in the header and
// in the state.
ghost use Rattle.std.specs.Prelude.{◌≡◌};
ghost use Rattle.answers.specs.Answers.{answer};
ghost use Rattle.answers.specs.declared.answer.Kind.TheVariants.{Refused};

use crate::answer;
use crate::answer::{Answer, Kind};
use crate::refusal::Refusal;
use numbers::sequence::Sequence;

// A header, which tells the number of its state.
pub trait Numbered {
    ghost use Rattle.numbers.specs.declared.sequence.Sequence.{Sequence};

    ghost number_of: { Self → Sequence };

    fn number(&self) -> Sequence
        ensures { result ≡ number_of self.now };
}

// What a call leaves of a state whose arrays are lent: the header, and what the call answers.
#[derive(Clone, Copy)]
pub struct Outcome<H> {
    pub header: H,
    pub answer: Answer,
}

impl<H> Outcome<H> {
    // What a call leaves that is accepted, of a kind, and has written so many bytes.
    pub fn accepted(header: H, kind: Kind, written: usize) -> Self
        ensures { (result.header ≡ header) × (result.answer ≡ answer kind written) }
    {
        Outcome {
            header,
            answer: answer::with_output(kind, written),
        }
    }
}

impl<H: Numbered> Outcome<H> {
    // What a refused call leaves: it tells the number of the state that it was given.
    pub fn refused(header: H, r: Refusal) -> Self
        ensures { (result.header ≡ header) × (result.answer ≡ answer (Refused r (H.number_of header)) 0) }
    {
        let number = header.number();
        Outcome {
            header,
            answer: answer::without_output(Kind::Refused(r, number)),
        }
    }
}

// The state after a call on a state by value, and what the call answers.
#[derive(Clone, Copy)]
pub struct Reply<S> {
    pub state: S,
    pub answer: Answer,
}
