// A text as a line of the listing shows it. Machinery, as all that is called `put`: it refuses nothing.
ghost use Rattle.std.specs.Prelude.{◌≡◌, ◌+◌, ◌*◌, leb, length};
ghost use Rattle.buffer.specs.Put.{Put};
ghost use Rattle.record_line.specs.RecordLine.{escaped, escaped_all, shown_unless, visible};

use buffer::{put, put_byte};

// Whether a byte stands in a line as it is.
fn is_visible(b: u8) -> bool
    ensures { result ≡ visible b }
{
    if b < 0x21 {
        return false;
    }
    if 0x7e < b {
        return false;
    }
    b != b'%'
}

// Puts a byte of a text.
fn put_shown_byte(b: u8, at: usize, out: &mut [u8]) -> usize
    ensures { Put out.old at (escaped b) out.new result }
{
    if is_visible(b) {
        return put_byte(b, at, out);
    }
    let digits = b"0123456789ABCDEF";
    let high = (b / 16) as usize;
    let low = (b % 16) as usize;
    let sign = put_byte(b'%', at, out);
    let first = put_byte(digits[high], sign, out);
    put_byte(digits[low], first, out)
}

// Puts the bytes of a text.
pub fn put_escaped(text: &[u8], at: usize, out: &mut [u8]) -> usize
    ensures { Put out.old at (escaped_all text.now) out.new result }
{
    let mut o = at;
    for &b in text {
        o = put_shown_byte(b, o, out);
    }
    o
}

// Puts a text, or "%!" where it is held back.
pub(crate) fn put_shown_text(held: bool, text: &[u8], at: usize, out: &mut [u8]) -> usize
    ensures { Put out.old at (shown_unless held text.now) out.new result }
{
    if held {
        return put(b"%!", at, out);
    }
    if text.len() == 0 {
        return put(b"%-", at, out);
    }
    put_escaped(text, at, out)
}

// How many bytes of a text don't stand as they are.
fn hidden_in(text: &[u8]) -> usize
    ensures { length (escaped_all text.now) ≡ length text.now + 2 * result }
{
    text.iter().filter(|b| !is_visible(**b)).count()
}

// Whether a text fits into so many bytes of room, or "%!" where it is held back. A byte takes one to three, so that its bytes are
// looked at only where that doesn't tell.
pub(crate) fn shown_fits(held: bool, text: &[u8], room: usize) -> bool
    ensures { result ≡ leb (length (shown_unless held text.now)) room }
{
    if held {
        return 2 <= room;
    }
    let n = text.len();
    if n == 0 {
        return 2 <= room;
    }
    if n <= room / 3 {
        return true;
    }
    if room < n {
        return false;
    }
    hidden_in(text) <= (room - n) / 2
}
