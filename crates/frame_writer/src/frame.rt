// Writing frames in the shortest size: one octet for a body of up to 255 bytes, and eight for a longer one.
ghost use Rattle.std.specs.Prelude.{◌≡◌, min};
ghost use Rattle.base.specs.Output.{Written, largest};
ghost use Rattle.frames.specs.Messages.{flag_of, header, frame_length, frame};

use base::{octets, output};

// The longest body whose size takes one octet.
const SHORT_MOST: usize = 255;

// How many bytes a frame takes whose body is n bytes long, or the largest number where that is larger.
pub fn frame_length(n: usize) -> usize
    ensures { result ≡ min (frame_length n) largest }
{
    let head = if n <= SHORT_MOST { 2 } else { 9 };
    output::add_lengths(n, head)
}

// The flag octet: its lowest bit promises another frame, and the next one says that the size takes eight octets.
fn flag(more: bool, long: bool) -> u8
    ensures { result ≡ flag_of more long }
{
    u8::from(more) + 2 * u8::from(long)
}

// The flag octet and the size of a frame whose body is n bytes long.
fn put_header(out: &mut [u8], at: usize, more: bool, n: usize) -> usize
    ensures { Written out.old at (header more n) result out.new }
{
    if n <= SHORT_MOST {
        let short = [flag(more, false), n as u8];
        return output::put_bytes(out, at, &short);
    }
    let mut long = [flag(more, true); 9];
    long[1..].copy_from_slice(&octets::octets_of(n as u64));
    output::put_bytes(out, at, &long)
}

// Writes a frame from place at on and gives the place behind it. Where it does not fit, the output stays as it is, and
// at is given back.
pub fn put_frame(out: &mut [u8], at: usize, more: bool, body: &[u8]) -> usize
    ensures { Written out.old at (frame more body.now) result out.new }
{
    let n = body.len();
    if !output::has_room(out.len(), at, frame_length(n)) {
        return at;
    }
    let next = put_header(out, at, more, n);
    output::put_bytes(out, next, body)
}
