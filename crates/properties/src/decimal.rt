// Decimal numbers of a bounded length and size.
ghost use Rattle.std.specs.Prelude.{◌≡◌};
ghost use Rattle.properties.specs.Decimals.{decimal_of};

use base::octets;

// The decimal number that some bytes are: one digit or more, at most so many, and the number at most so large.
pub fn read_decimal(s: &[u8], digits: usize, most: u32) -> Option<u64>
    ensures { result ≡ decimal_of digits most s.now }
{
    if s.is_empty() || digits < s.len() {
        return None;
    }
    let mut n: u64 = 0;
    for b in s {
        if !b.is_ascii_digit() {
            return None;
        }
        n = n * 10 + octets::wide(*b - b'0');
        if u64::from(most) < n {
            return None;
        }
    }
    Some(n)
}
