#![tactic(auto)]
// Writing into a lent buffer.
//
// `write` is for every call that has its bytes at hand: all of them, or refusal 5 and nothing changed. The `put`s are machinery for
// texts that are put together: each takes an offset and answers the offset where it stopped, behind what it put or at the buffer's end.
// They refuse nothing and ask for no room, so a call of the library's face puts into a lent buffer only where all of it fits.
ghost use Rattle.std.specs.Prelude.{◌≡◌, ◌∷◌, [], ◌++◌, length};
ghost use Rattle.buffer.specs.Decimal.{decimal};
ghost use Rattle.buffer.specs.Put.{Put};
ghost use Rattle.buffer.specs.Written.{outcome, written};

use answers::Refusal;

// Puts the byte b where there is room.
pub fn put_byte(b: u8, at: usize, out: &mut [u8]) -> usize
    ensures { Put out.old at (b ∷ []) out.new result }
{
    if at < out.len() {
        out[at] = b;
        at + 1
    } else {
        at
    }
}

// Puts bytes as they are.
pub fn put(bytes: &[u8], at: usize, out: &mut [u8]) -> usize
    ensures { Put out.old at bytes.now out.new result }
{
    let mut o = at;
    for &b in bytes {
        o = put_byte(b, o, out);
    }
    o
}

// How many digits n has in decimal.
pub fn decimal_length(n: u64) -> usize
    ensures { result ≡ length (decimal n) }
{
    n.max(1).ilog10() as usize + 1
}

// Puts n in decimal, the last digit first: each stands at its final place.
pub fn put_decimal(n: u64, at: usize, out: &mut [u8]) -> usize
    ensures { Put out.old at (decimal n) out.new result }
{
    if out.len() <= at {
        return at;
    }
    let end = at + decimal_length(n);
    let mut left = n;
    for o in (at + 1..end).rev() {
        put_byte(48 + (left % 10) as u8, o, out);
        left /= 10;
    }
    put_byte(48 + left as u8, at, out);
    end.min(out.len())
}

// Puts fixed words and then n in decimal.
pub fn put_label(front: &[u8], n: u64, at: usize, out: &mut [u8]) -> usize
    ensures { Put out.old at (front.now ++ decimal n) out.new result }
{
    let a = put(front, at, out);
    put_decimal(n, a, out)
}

// Puts n in decimal between fixed words.
pub fn put_between(front: &[u8], n: u64, back: &[u8], at: usize, out: &mut [u8]) -> usize
    ensures { Put out.old at (front.now ++ decimal n ++ back.now) out.new result }
{
    let a = put_label(front, n, at, out);
    put(back, a, out)
}

// Writes bytes to the front of out; where out is shorter, it is left as it is.
pub fn write(bytes: &[u8], out: &mut [u8]) -> Result<usize, Refusal>
    ensures { outcome result out.new ≡ written bytes.now out.old }
{
    let n = bytes.len();
    if n <= out.len() {
        put(bytes, 0, out);
        Ok(n)
    } else {
        Err(Refusal::ShortBuffer)
    }
}
