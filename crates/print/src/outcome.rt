// What came of a call.
use answers::answer::{Answer, Kind};
use answers::{answer, refusal};
use std::io;

// The name of a kind.
fn name(k: Kind) -> &'static str {
    match k {
        Kind::Refused(_, _) => "refused",
        Kind::Started(_) => "started",
        Kind::Applied(_) => "applied",
        Kind::Stale(_) => "stale",
        Kind::Outside(_) => "outside",
        Kind::Synced(_) => "synced",
        Kind::Live(_) => "live",
        Kind::Heard(_) => "heard",
        Kind::Wrote(_) => "wrote",
        Kind::Nothing(_) => "nothing",
        Kind::Found(_) => "found",
        Kind::Absent(_) => "absent",
        Kind::Present(_) => "present",
        Kind::Gone(_) => "gone",
    }
}

// The rest of a line, with an answer: its kind, with the number of the refusal if it is one, the number of the state
// after the call, and how many bytes are written.
pub fn answer(rt: &impl Print, a: Answer) -> io::Result<()> {
    print!(rt; ": {}", name(a.kind))?;
    if let Kind::Refused(r, _) = a.kind {
        print!(rt; " {}", refusal::refusal_number(r))?;
    }
    let number = answer::sequence_in(a.kind).0;
    println!(rt; ", number {number}, bytes written {}", a.written)
}
