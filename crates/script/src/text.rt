// Bytes written as text.
ghost use Rattle.std.specs.Prelude.{◌≡◌, ◌<◌, ◌≤◌, length, drop, IfNone, IfSome};
ghost use Rattle.base.specs.Cuts.{before};
ghost use Rattle.base.specs.Output.{Written};
ghost use Rattle.script.specs.Texts.{digit_of, octet_of, front_byte, front_width, text_in};

// How many bytes are before the first b: all of them where there is none.
pub fn place(s: &[u8], b: u8) -> usize
    ensures { (result ≡ length (before b s.now)) × (result ≤ length s.now) }
{
    s.iter().position(|x| *x == b).unwrap_or(s.len())
}

// The value of a hexadecimal digit; 0 for any other byte.
fn digit(b: u8) -> u8
    ensures { (result ≡ digit_of b) × (result ≤ 15) }
{
    match b {
        b'0'..=b'9' => b - b'0',
        b'a'..=b'f' => b - b'a' + 10,
        _ => 0,
    }
}

fn octet(high: u8, low: u8) -> u8
    ensures { result ≡ octet_of high low }
{
    digit(high) * 16 + digit(low)
}

// The byte that the front of a text stands for, and the text behind it; nothing where there is no text.
fn first(s: &[u8]) -> Option<(u8, &[u8])>
    ensures none { IfNone result (length s.now ≡ 0) }
    ensures some { IfSome result (λ p. 0 < length s.now) }
    ensures byte { IfSome result (λ p. p.0 ≡ front_byte s.now) }
    ensures rest { IfSome result (λ p. p.1.now ≡ drop (front_width s.now) s.now) }
{
    match s {
        [b'\\', b'x', high, low, rest @ ..] => Some((octet(*high, *low), rest)),
        [b, rest @ ..] => Some((*b, rest)),
        [] => None,
    }
}

// Puts the bytes that a text stands for into the output, as many as it has room for, and gives their number.
pub fn decode(s: &[u8], out: &mut [u8]) -> usize
    ensures { Written out.old 0 (text_in out.old s.now) result out.new }
{
    let mut rest = s;
    for (at, slot) in out.iter_mut().enumerate() {
        let Some((b, behind)) = first(rest) else {
            return at;
        };
        *slot = b;
        rest = behind;
    }
    out.len()
}
