#![tactic(auto)]
// The order of two records of a run, which stand at offsets of the same bytes. Only as much is read as decides it.
ghost use Rattle.std.specs.Prelude.{◌≡◌, ◌*◌, ◌+◌, ◌-◌, ◌<◌, ◌≤◌, drop, length};
ghost use Rattle.order_at.specs.Apart.{FirstApart, Limit, nth_word};
ghost use Rattle.order_at.specs.OrderAt.{order_at, plain_at};

use order::{Ordering, cmp};
use reading::{lesser, parse};
use record::{ResTableConfig, blank};

// The record at an offset, plainly parsed; it holds nothing where no whole one stands.
pub fn record_at(bytes: &[u8], offset: usize) -> ResTableConfig
    ensures { result ≡ plain_at bytes.now offset }
{
    let from = lesser(offset, bytes.len());
    match parse(&bytes[from..]) {
        Ok(parsed) => parsed.record,
        Err(_) => blank(),
    }
}

// A byte as a word.
fn wide(x: u8) -> u32
    ensures { (result ≡ x) × (result < 256) }
{
    x as u32
}

// Word f of the bytes from an offset on, little-endian, words counted from 0.
fn word_at(bytes: &[u8], offset: usize, f: usize) -> u32
    requires { offset + (4 * f + 4) ≤ length bytes.now }
    ensures { result ≡ nth_word (drop offset bytes.now) f }
{
    let at = offset + 4 * f;
    wide(bytes[at])
        + 256 * wide(bytes[at + 1])
        + 65536 * wide(bytes[at + 2])
        + 16777216 * wide(bytes[at + 3])
}

// How far the record at an offset is read: to the lesser of T and 64, and where no whole one stands, not at all.
fn limit_at(bytes: &[u8], offset: usize) -> usize
    ensures { Limit bytes.now offset result }
{
    if bytes.len() < offset {
        return 0;
    }
    let left = bytes.len() - offset;
    if left < 16 {
        return 0;
    }
    let size = word_at(bytes, offset, 0) as usize;
    if left < size {
        return 0;
    }
    if size < 16 {
        return 16;
    }
    lesser(size, 64)
}

// The first word, from `from` on and before `to`, that ends within a limit and differs between the bytes from p on and those from q on;
// `to` where there is none.
fn first_apart(bytes: &[u8], p: usize, q: usize, limit: usize, from: usize, to: usize) -> usize
    requires { ((from ≤ to) × (to ≤ 16)) × ((limit ≤ length bytes.now - p) × (limit ≤ length bytes.now - q)) }
    ensures { FirstApart (drop p bytes.now) (drop q bytes.now) limit from to result }
{
    for f in from..to {
        if limit < 4 * f + 4 {
            return to;
        }
        if word_at(bytes, p, f) != word_at(bytes, q, f) {
            return f;
        }
    }
    to
}

// The order of the record at offset p and that at offset q, both parsed whole.
fn parsed_order(bytes: &[u8], p: usize, q: usize) -> Ordering
    ensures { result ≡ order_at bytes.now p q }
{
    let first = record_at(bytes, p);
    let second = record_at(bytes, q);
    cmp(first, second)
}

// How the record at offset p stands to that at offset q. The fields from imsi to screen_size_dp are words 1 to 8, and the first that differs
// decides. Records that are read equally far and differ in no word are Equal. Both are parsed only where a later field differs, where
// they agree as far as both are read and one is read further, or where no whole record stands at one of the offsets.
pub fn order_at(bytes: &[u8], p: usize, q: usize) -> Ordering
    ensures { result ≡ order_at bytes.now p q }
{
    let m = limit_at(bytes, p);
    let n = limit_at(bytes, q);
    let both = lesser(m, n);
    if both < 16 {
        return parsed_order(bytes, p, q);
    }
    let f = first_apart(bytes, p, q, both, 1, 9);
    if f < 9 {
        return if word_at(bytes, p, f) < word_at(bytes, q, f) {
            Ordering::Less
        } else {
            Ordering::Greater
        };
    }
    if m == n && m % 4 == 0 && first_apart(bytes, p, q, m, 9, 16) == 16 {
        return Ordering::Equal;
    }
    parsed_order(bytes, p, q)
}
