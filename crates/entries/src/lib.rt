#![tactic(auto)]
// An entry of an index: a record's key, the offset where it stands first in its run, and how often it stands there.
ghost use Rattle.buffer.specs.Put.{Put};
ghost use Rattle.entries.specs.Entry.{entry_of, little4, little8};

use buffer::put_byte;
use keys::put_key;
use record::ResTableConfig;

// Puts the four low bytes of a number, little-endian.
fn put_four(x: usize, at: usize, out: &mut [u8]) -> usize
    ensures { Put out.old at (little4 x) out.new result }
{
    let a = put_byte((x % 256) as u8, at, out);
    let b = put_byte((x / 256 % 256) as u8, a, out);
    let c = put_byte((x / 65536 % 256) as u8, b, out);
    put_byte((x / 16777216 % 256) as u8, c, out)
}

// Puts a number as eight bytes, little-endian. It refuses nothing.
pub fn put_eight(x: usize, at: usize, out: &mut [u8]) -> usize
    ensures { Put out.old at (little8 x) out.new result }
{
    let a = put_four(x, at, out);
    put_four(x / 4294967296, a, out)
}

// Puts the entry of a record that stands first at an offset, and so often. It refuses nothing.
pub fn put_entry(x: ResTableConfig, offset: usize, count: usize, at: usize, out: &mut [u8]) -> usize
    ensures { Put out.old at (entry_of x offset count) out.new result }
{
    let a = put_key(x, at, out);
    let b = put_eight(offset, a, out);
    put_eight(count, b, out)
}
