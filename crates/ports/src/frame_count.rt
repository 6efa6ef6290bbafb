// The checks that stand before all others at a port: the framing, and how many frames the port takes.
ghost use Rattle.std.specs.Prelude.{◌≡◌};
ghost use Rattle.answers.specs.Refusals.{verdict};
ghost use Rattle.base.specs.Checks.{first_refusal};
ghost use Rattle.ports.specs.Bodies.{framed_by};

use answers::refusal::Refusal;
use framing::Flaw;

// Whether the framing of a message is sound, and whether it has so many frames.
pub fn check_framing(framing: Result<usize, Flaw>, count: usize) -> Result<(), Refusal>
    ensures { result ≡ verdict (first_refusal (framed_by count framing)) }
{
    match framing {
        Err(_) => Err(Refusal::Framing),
        Ok(n) if n != count => Err(Refusal::FrameCount),
        Ok(_) => Ok(()),
    }
}
