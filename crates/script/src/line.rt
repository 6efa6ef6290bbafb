// The fields of a line, between bars, and numbers in them.
ghost use Rattle.std.specs.Prelude.{◌≡◌, true, false, IfNone, IfSome};
ghost use Rattle.base.specs.Bytes.{holds};
ghost use Rattle.base.specs.Cuts.{before, behind};
ghost use Rattle.script.specs.Lines.{bar, field_at, from_field};
ghost use Rattle.script.specs.Numbers.{text_number, with_byte};

use crate::text;

// What is before the first bar of a line, and what is behind it; nothing where the line has no bar.
pub(crate) fn cut(line: &[u8]) -> Option<(&[u8], &[u8])>
    ensures none { IfNone result (holds bar line.now ≡ false) }
    ensures some { IfSome result (λ p. holds bar line.now ≡ true) }
    ensures front { IfSome result (λ p. p.0.now ≡ before bar line.now) }
    ensures rest { IfSome result (λ p. p.1.now ≡ behind bar line.now) }
{
    let n = text::place(line, b'|');
    if n == line.len() {
        return None;
    }
    Some((&line[..n], &line[n + 1..]))
}

// What is behind k bars of a line; no bytes where it has fewer.
pub fn behind_bars(line: &[u8], k: usize) -> &[u8]
    ensures { result.now ≡ from_field k line.now }
{
    let mut rest = line;
    for _ in 0..k {
        let Some((_, behind)) = cut(rest) else {
            return b"";
        };
        rest = behind;
    }
    rest
}

// Field k of a line, counted from 0; no bytes where the line has fewer.
pub fn field(line: &[u8], k: usize) -> &[u8]
    ensures { result.now ≡ field_at k line.now }
{
    line.split(|b| *b == b'|').nth(k).unwrap_or(b"")
}

// A number with one byte more, or the largest number where that is larger. What is no digit is passed over.
fn with_byte(n: u64, b: u8) -> u64
    ensures { result ≡ with_byte n b }
{
    match b {
        b'0'..=b'9' => n.saturating_mul(10).saturating_add(u64::from(b - b'0')),
        _ => n,
    }
}

// The number that the digits of a text are in decimal, or the largest number where that is larger.
pub fn number(s: &[u8]) -> u64
    ensures { result ≡ text_number s.now }
{
    s.iter().fold(0, |n, b| with_byte(n, *b))
}
