// Reading properties: lines of name=value, of which one may be a lifetime in seconds.
ghost use Rattle.std.specs.Prelude.{◌≡◌};
ghost use Rattle.properties.specs.Properties.{properties_of};
ghost use Rattle.properties.specs.Lines.{line_of, with_line};

use crate::decimal;
use base::bytes;

pub const PROPERTIES_ROOM: usize = 128;

pub const TTL_DIGITS: usize = 5;

pub const MAX_TTL: u32 = 86400;

// How long a row lives: for ever, or some seconds. A lifetime of 0 seconds is one. No `Option`, whose `None` would read
// as no lifetime.
#[derive(Clone, Copy)]
pub enum Lifetime {
    Unlimited,
    Seconds(u64),
}

// What a line says: a lifetime, or something else.
#[derive(Clone, Copy)]
pub(crate) enum Line {
    Other,
    Lasting(u64),
}

// A line, without its newline; none where it says nothing that a line may say.
fn read_line(line: &[u8]) -> Option<Line>
    ensures { result ≡ line_of line.now }
{
    if bytes::find_byte(line, 0).is_some() {
        return None;
    }
    let sign = bytes::find_byte(line, b'=')?;
    if sign == 0 {
        return None;
    }
    if !bytes::same_bytes(b"ttl", &line[..sign]) {
        return Some(Line::Other);
    }
    let seconds = decimal::read_decimal(&line[sign + 1..], TTL_DIGITS, MAX_TTL)?;
    Some(Line::Lasting(seconds))
}

// What properties say that say so much before a line more.
fn add_line(lifetime: Lifetime, line: &[u8]) -> Option<Lifetime>
    ensures { result ≡ with_line lifetime (line_of line.now) }
{
    let said = read_line(line)?;
    match (said, lifetime) {
        (Line::Other, _) => Some(lifetime),
        (Line::Lasting(seconds), Lifetime::Unlimited) => Some(Lifetime::Seconds(seconds)),
        (Line::Lasting(_), Lifetime::Seconds(_)) => None,
    }
}

// The lifetime that a properties frame gives; none where it is malformed.
pub fn read_properties(s: &[u8]) -> Option<Lifetime>
    ensures { result ≡ properties_of s.now }
{
    if PROPERTIES_ROOM < s.len() {
        return None;
    }
    let mut rest = s;
    let mut lifetime = Lifetime::Unlimited;
    while !rest.is_empty() {
        let end = bytes::find_byte(rest, b'\n')?;
        lifetime = add_line(lifetime, &rest[..end])?;
        rest = &rest[end + 1..];
    }
    Some(lifetime)
}
