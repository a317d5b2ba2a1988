#![tactic(auto)]
// Subtags: bytes that should be UTF-8, copied with their ill-formed parts replaced and trailing NULs dropped. The copy counts what it
// replaces.
mod utf8;

ghost use Rattle.std.specs.Prelude.{◌≡◌, ◌≤◌, ◌<◌, length, take};
ghost use Rattle.buffer.specs.Put.{reach};
ghost use Rattle.buffer.specs.Counted.{counted_outcome, counting};
ghost use Rattle.buffer.specs.Written.{written};
ghost use Rattle.subtag.specs.Copies.{Copies};
ghost use Rattle.subtag.specs.Replacements.{replacements};
ghost use Rattle.subtag.specs.Subtag.{replaced, drop_nuls, subtag_of};
ghost use Rattle.subtag.specs.Steps.{Fronted, Measured};

use answers::{Counted, Refusal};
use buffer::{put, put_byte};
use utf8::{Front, first};

// Where a copier stopped, and how many maximal ill-formed subparts its source has: it replaced each that it had room for.
#[derive(Clone, Copy)]
pub struct Copied {
    pub at: usize,
    pub replacements: usize,
}

// Of a copy at the front of a buffer that has room for it.
impl From<Copied> for Counted {
    ghost use Rattle.subtag.specs.Copies.{counted_by};

    ghost from_gives = { λ copied counted. counted ≡ counted_by copied };

    fn from(copied: Copied) -> Self {
        Counted {
            length: copied.at,
            replacements: copied.replacements,
        }
    }
}

// A writer's next offset, how many bytes of its source it has taken, and how many maximal subparts it has replaced.
#[derive(Clone, Copy)]
struct Moved {
    at: usize,
    taken: usize,
    replacements: usize,
}

// How many bytes a front becomes, and how many it has.
#[derive(Clone, Copy)]
struct Sizes {
    becomes: usize,
    taken: usize,
}

// Puts what the front of src becomes.
fn put_front(src: &[u8], at: usize, out: &mut [u8]) -> Moved
    requires { 0 < length src.now }
    ensures { Fronted out.old at src.now out.new result.at result.taken result.replacements }
{
    match first(src) {
        Front::WellFormed(n) => Moved {
            at: put(&src[..n], at, out),
            taken: n,
            replacements: 0,
        },
        Front::IllFormed(n) => Moved {
            at: put(b"\xef\xbf\xbd", at, out),
            taken: n,
            replacements: 1,
        },
    }
}

// Puts src with each maximal ill-formed subpart replaced by EF BF BD. A byte below 0x80 is a front by itself: most are, so it is looked
// at first.
fn put_replaced(src: &[u8], at: usize, out: &mut [u8]) -> Copied
    ensures { Copies out.old at (replaced src.now) (replacements src.now) out.new result }
{
    let mut o = at;
    let mut i = 0;
    let mut replacements = 0;
    while i < src.len() {
        let b = src[i];
        if b < 0x80 {
            o = put_byte(b, o, out);
            i += 1;
        } else {
            let moved = put_front(&src[i..], o, out);
            o = moved.at;
            i += moved.taken;
            replacements += moved.replacements;
        }
    }
    Copied {
        at: o,
        replacements,
    }
}

// How long s is without the NULs at its end.
fn trim(s: &[u8]) -> usize
    ensures { (result ≤ length s.now) × (take result s.now ≡ drop_nuls s.now) }
{
    for n in (0..s.len()).rev() {
        if s[n] != 0 {
            return n + 1;
        }
    }
    0
}

// Puts a subtag. A NUL stands by itself, so those at the end may go first. Machinery: it refuses nothing.
pub fn put_subtag(src: &[u8], at: usize, out: &mut [u8]) -> Copied
    ensures { Copies out.old at (subtag_of src.now) (replacements src.now) out.new result }
{
    let n = trim(src);
    put_replaced(&src[..n], at, out)
}

// The sizes of the front of src.
fn measure(src: &[u8]) -> Sizes
    requires { 0 < length src.now }
    ensures { Measured src.now result.becomes result.taken }
{
    match first(src) {
        Front::WellFormed(n) => Sizes {
            becomes: n,
            taken: n,
        },
        Front::IllFormed(n) => Sizes {
            becomes: 3,
            taken: n,
        },
    }
}

// Where src with its ill-formed parts replaced would stop at the front of a buffer of room bytes. Bytes below 0x80 are looked at first here,
// too.
fn replaced_reach(src: &[u8], room: usize) -> usize
    ensures { result ≡ reach room 0 (replaced src.now) }
{
    let mut o = 0;
    let mut i = 0;
    while i < src.len() {
        if src[i] < 0x80 {
            if o == room {
                return room;
            }
            o += 1;
            i += 1;
        } else {
            let front = measure(&src[i..]);
            if room - o < front.becomes {
                return room;
            }
            o += front.becomes;
            i += front.taken;
        }
    }
    o
}

// Where a subtag would stop at the front of a buffer of room bytes: behind it, or where there is no room. So it tells the length of a
// subtag that isn't longer, and writes nothing.
pub fn subtag_reach(src: &[u8], room: usize) -> usize
    ensures { result ≡ reach room 0 (subtag_of src.now) }
{
    let n = trim(src);
    replaced_reach(&src[..n], room)
}

// Writes a subtag to the front of out; where out is shorter, it is left as it is.
pub fn write_subtag(src: &[u8], out: &mut [u8]) -> Result<Counted, Refusal>
    ensures { counted_outcome result out.new ≡ counting (replacements src.now) (written (subtag_of src.now) out.old) }
{
    if out.len() < subtag_reach(src, out.len() + 1) {
        return Err(Refusal::ShortBuffer);
    }
    Ok(put_subtag(src, 0, out).into())
}
