#![tactic(auto)]
// Numbers of 16 bits, read from decimal digits.
ghost use Rattle.std.specs.Prelude.{◌≡◌, ◌≤◌, SomeIff};
ghost use Rattle.numbers.specs.Numbers.{further, leading_zero, number_in};

// The number n, and the digit b behind it, where b is a digit and the number has no more than 16 bits.
fn further(n: u16, b: u8) -> Option<u16>
    ensures { SomeIff result (further n b ≤ 65535) (further n b) }
{
    let b'0'..=b'9' = b else {
        return None;
    };
    u16::try_from(u32::from(n) * 10 + u32::from(b - b'0')).ok()
}

// Whether a zero stands in front of other bytes.
fn leading_zero(s: &[u8]) -> bool
    ensures { result ≡ leading_zero s.now }
{
    matches!(s, [b'0', _, ..])
}

// The number that bytes are in decimal, with no leading zero, where it has no more than 16 bits.
pub fn number_in(s: &[u8]) -> Option<u16>
    ensures { SomeIff result (number_in s.now ≤ 65535) (number_in s.now) }
{
    if s.is_empty() || leading_zero(s) {
        return None;
    }
    let mut n = 0;
    for b in s {
        n = further(n, *b)?;
    }
    Some(n)
}
