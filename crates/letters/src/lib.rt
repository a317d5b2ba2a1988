#![tactic(auto)]
// The languages and the regions of a directory name, of two or three letters: the value of each.
ghost use Rattle.std.specs.Prelude.{◌≡◌, ◌<◌, ◌&&◌, IsTrue, SomeIff};
ghost use Rattle.grammar.specs.Forms.{letter_pair};
ghost use Rattle.letters.specs.Letters.{within, three, language_value, region_value};

use compare::same;

// Whether a byte is one of lo to hi.
fn within(lo: u8, hi: u8, a: u8) -> bool
    ensures { result ≡ within lo hi a }
{
    (lo..=hi).contains(&a)
}

// Two bytes of lo to hi, as the two bytes of a language or a region.
fn two(lo: u8, hi: u8, a: u8, b: u8) -> Option<u32>
    ensures { SomeIff result (IsTrue (within lo hi a && within lo hi b)) (letter_pair a b) }
{
    if !within(lo, hi, a) || !within(lo, hi, b) {
        return None;
    }
    Some(u32::from(a) + u32::from(b) * 256)
}

// Three bytes of lo to hi, counted from lo, of five bits each; the high bit of the first byte is set.
fn three(lo: u8, hi: u8, a: u8, b: u8, c: u8) -> Option<u32>
    ensures { SomeIff result (0 < three lo hi a b c) (three lo hi a b c) }
{
    if !within(lo, hi, a) || !within(lo, hi, b) || !within(lo, hi, c) {
        return None;
    }
    let x = u32::from(a - lo);
    let y = u32::from(b - lo);
    let z = u32::from(c - lo);
    Some((128 + z * 4 + y / 8) + (x + y % 8 * 32) * 256)
}

// Two or three lowercase letters, but not "car", which is a UI type.
pub fn language_value(s: &[u8]) -> Option<u32>
    ensures { SomeIff result (0 < language_value s.now) (language_value s.now) }
{
    match s {
        [a, b] => two(b'a', b'z', *a, *b),
        [a, b, c] if !same(s, b"car") => three(b'a', b'z', *a, *b, *c),
        _ => None,
    }
}

// 'r' and two capitals or three digits.
pub fn region_value(s: &[u8]) -> Option<u32>
    ensures { SomeIff result (0 < region_value s.now) (region_value s.now) }
{
    match s {
        [b'r', a, b] => two(b'A', b'Z', *a, *b),
        [b'r', a, b, c] => three(b'0', b'9', *a, *b, *c),
        _ => None,
    }
}
