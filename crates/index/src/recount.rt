// The counts of an index where none are held beside the offsets: the entries are put with counts of 0, and then the run is walked once more,
// and each of its records adds one to the count in its entry. So the counts need no room but the lent one.
ghost use Rattle.std.specs.Prelude.{◌≡◌, ◌++◌, ◌+◌, ◌<◌, ◌≤◌, drop, length};
ghost use Rattle.record.specs.Table.{le, part};
ghost use Rattle.index.specs.Index.{index_of};
ghost use Rattle.index.specs.Steps.{Uncounted, one_more_at};

use crate::held::seek;
use entries::put_eight;
use runs::front_at;

// A byte as a number.
fn wide(x: u8) -> usize
    ensures { (result ≡ x) × (result < 256) }
{
    x as usize
}

// The number of the four bytes at an offset, little-endian.
fn half_at(bytes: &[u8], at: usize) -> usize
    requires { at + 4 ≤ length bytes.now }
    ensures { (result ≡ le (part bytes.now at 4)) × (result < 4294967296) }
{
    wide(bytes[at])
        + 256 * wide(bytes[at + 1])
        + 65536 * wide(bytes[at + 2])
        + 16777216 * wide(bytes[at + 3])
}

// Adds one to the number of the eight bytes at an offset, little-endian.
fn count_more(at: usize, out: &mut [u8])
    requires { (at + 8 ≤ length out.old) × (le (part out.old at 8) < 18446744073709551615) }
    ensures { out.new ≡ one_more_at out.old at }
{
    let count = half_at(out, at) + 4294967296 * half_at(out, at + 4);
    put_eight(count + 1, at, out);
}

// Counts the records of the run that begins at offset 0 in the entries of its m distinct ones: each is met among them.
pub(crate) fn recount(bytes: &[u8], held: &[usize], m: usize, out: &mut [u8])
    requires { Uncounted bytes.now held.now m out.old }
    ensures { out.new ≡ index_of bytes.now ++ drop (length (index_of bytes.now)) out.old }
{
    let mut here = 0;
    while let Ok(n) = front_at(bytes, here) {
        if let Ok(place) = seek(bytes, here, held, m, false) {
            count_more(76 * place + 68, out);
        }
        here += n;
    }
}
