// Messages that are written as a line, a field for each frame.
ghost use Rattle.std.specs.Prelude.{◌≡◌, ◌≤◌, min, length};
ghost use Rattle.base.specs.Output.{Written, largest};
ghost use Rattle.frames.specs.Messages.{frame_length, frame};
ghost use Rattle.script.specs.Messages.{field_body, message_of};

use crate::{line, text};
use base::{bytes, octets, output};
use frame_writer::frame;

// Puts the body that a field stands for into an array, and gives its length; #N is the number N as eight octets. The
// array is a fixed one, since the functions that are proved write into lent slices, and these here cannot fail.
fn put_body(field: &[u8], body: &mut [u8; 512]) -> usize
    ensures { Written body.old 0 (field_body field.now) result body.new }
{
    if bytes::starts_with(field, b"#") {
        let eight = octets::octets_of(line::number(bytes::behind(field, 1)));
        return output::put_bytes(body, 0, &eight);
    }
    text::decode(field, body)
}

// How many bytes the frame of a field takes.
fn framed_length(field: &[u8]) -> usize
    ensures { result ≡ frame_length (length (field_body field.now)) }
{
    let mut body = [0; 512];
    frame::frame_length(put_body(field, &mut body))
}

// Writes the frame of a field.
fn write_frame(field: &[u8], out: &mut [u8], at: usize, more: bool) -> usize
    ensures { Written out.old at (frame more (field_body field.now)) result out.new }
{
    let mut body = [0; 512];
    let n = put_body(field, &mut body);
    frame::put_frame(out, at, more, bytes::front(&body, n))
}

// How many bytes the message of a line takes, or the largest number where that is larger.
fn frames_length(line: &[u8]) -> usize
    ensures { result ≡ min (length (message_of line.now)) largest }
{
    let mut rest = line;
    let mut n = 0;
    while let Some((front, behind)) = line::cut(rest) {
        n = output::add_lengths(n, framed_length(front));
        rest = behind;
    }
    output::add_lengths(n, framed_length(rest))
}

// Writes the frames of a line into an output that has room for them. Each is put behind what the one before it gives,
// and the last promises no other, so the place is kept here.
fn put_fields(line: &[u8], out: &mut [u8]) -> usize
    requires { length (message_of line.now) ≤ length out.old }
    ensures { Written out.old 0 (message_of line.now) result out.new }
{
    let mut rest = line;
    let mut at = 0;
    while let Some((front, behind)) = line::cut(rest) {
        at = write_frame(front, out, at, true);
        rest = behind;
    }
    write_frame(rest, out, at, false)
}

// Writes the message of a line and gives its length. Where it does not fit, the output stays as it is, and 0 is given.
pub fn write_frames(s: &[u8], out: &mut [u8]) -> usize
    ensures { Written out.old 0 (message_of s.now) result out.new }
{
    if out.len() < frames_length(s) {
        return 0;
    }
    put_fields(s, out)
}
