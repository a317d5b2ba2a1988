#![tactic(auto)]
// What the programs that replay questions are told and say, as bytes: little-endian numbers, and an answer's line.
mod hex;
mod numbers;

ghost use Rattle.std.specs.Prelude.{◌≡◌, ◌≤◌, min, length, take};

pub use hex::line;
pub use numbers::{eight, four, put_eight, put_four, put_two, two};

// The end of a buffer's front of n bytes: n, or the buffer's end where that comes before.
pub fn front(n: usize, buffer: &[u8]) -> usize
    ensures value { result ≡ min n (length buffer.now) }
    ensures in_bounds { result ≤ length buffer.now }
    ensures prefix_len { result ≡ length (take result buffer.now) }
{
    if n < buffer.len() { n } else { buffer.len() }
}
