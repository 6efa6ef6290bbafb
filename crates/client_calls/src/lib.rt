// The calls of a client: what each refuses, makes of the state, writes and answers, as definitions; and what the
// entries give back. The entries themselves are in a crate for each call.
#![tactic(auto)]

ghost use Rattle.std.specs.Prelude.{◌≡◌};
ghost use Rattle.client_calls.specs.Written.{written_of};

use answers::answer::{Answer, Kind};
use answers::refusal::Refusal;
use answers::{answer, outcome};
use client_state::Header;
use numbers::sequence::Sequence;

// What a call leaves of a client whose arrays are lent.
pub type Outcome = outcome::Outcome<Header>;

// What a call answers that has put so many bytes into the output. No message and no value is empty: where none is
// written, the output was too short.
pub fn written(kind: Kind, number: Sequence, count: usize) -> Answer
    ensures { result ≡ written_of kind number count }
{
    if count == 0 {
        return answer::without_output(Kind::Refused(Refusal::ShortOutput, number));
    }
    answer::with_output(kind, count)
}
