#![tactic(auto)]
// The forms of parts that hold numbers: the value that each gives to the bytes that it makes.
ghost use Rattle.std.specs.Prelude.{◌+◌, ◌<◌, ◌≤◌, SomeIff, take, drop};
ghost use Rattle.compare.specs.Compare.{up_to};
ghost use Rattle.numbers.specs.Numbers.{number_in};
ghost use Rattle.forms.specs.Values.{number_value, density_value, pair_value, sides_value, minor_value};

use compare::{begins_with, up_to};
use kinds::Density;
use numbers::number_in;

// The number between two words, where it isn't 0.
pub fn number_value(s: &[u8], front: &[u8], back: &[u8]) -> Option<u32>
    ensures { SomeIff result (0 < number_value front.now back.now s.now) (number_value front.now back.now s.now) }
{
    let digits = s.strip_prefix(front)?.strip_suffix(back)?;
    let number = u32::from(number_in(digits)?);
    (number != 0).then_some(number)
}

// A density that has no word.
pub fn density_value(s: &[u8]) -> Option<u32>
    ensures { SomeIff result (0 < density_value s.now) (density_value s.now) }
{
    let number = number_value(s, b"", b"dpi")?;
    match Density::from(number as u16) {
        Density::Unknown(v) => Some(u32::from(v)),
        _ => None,
    }
}

// Two numbers with the byte b between them, as one of 32 bits.
fn pair_value(s: &[u8], b: u8) -> Option<u32>
    ensures { SomeIff result ((number_in (take (up_to b s.now) s.now) ≤ 65535) × (number_in (drop (up_to b s.now + 1) s.now) ≤ 65535)) (pair_value b s.now) }
{
    let k = up_to(s, b);
    let behind = s.get(k + 1..)?;
    let n = number_in(&s[..k])?;
    let m = number_in(behind)?;
    Some(u32::from(n) + u32::from(m) * 65536)
}

// Both sides in pixels, where one isn't 0.
pub fn sides_value(s: &[u8]) -> Option<u32>
    ensures { SomeIff result (0 < sides_value s.now) (sides_value s.now) }
{
    let sides = pair_value(s, b'x')?;
    (sides != 0).then_some(sides)
}

// A version with a minor one that isn't 0.
pub fn minor_value(s: &[u8]) -> Option<u32>
    ensures { SomeIff result (0 < minor_value s.now) (minor_value s.now) }
{
    if !begins_with(s, b"v") {
        return None;
    }
    let version = pair_value(&s[1..], b'.')?;
    (65536 <= version).then_some(version)
}
