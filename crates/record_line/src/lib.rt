#![tactic(auto)]
// A record as a line of the listing shows it.
mod escaping;

ghost use Rattle.std.specs.Prelude.{◌≡◌, [], ◌++◌, cond, ◌+◌, ◌≤◌, leb, length};
ghost use Rattle.buffer.specs.Decimal.{decimal};
ghost use Rattle.buffer.specs.Put.{Put};
ghost use Rattle.buffer.specs.Written.{outcome, written};
ghost use Rattle.marking.specs.Marks.{letters_in};
ghost use Rattle.subtag.specs.Copies.{Copies};
ghost use Rattle.locale.specs.Subtags.{text_replacements};
ghost use Rattle.places.specs.Places.{text_of};
ghost use Rattle.record_line.specs.RecordLine.{laid_out, record_line_of, replacements_unless, shown_unless, space};
ghost use Rattle.record_line.specs.LineIn.{line_in};

use answers::Refusal;
use buffer::{decimal_length, put_between, put_byte, put_decimal};
pub use escaping::put_escaped;
use escaping::{put_shown_text, shown_fits};
use marking::{late_bytes, put_marks};
use places_all::put_text;
use reading::{lesser, read_to, take};
use record::{Age, ResTableConfig};
use subtag::Copied;
use text::LONGEST_TEXT;

// No line of a record is longer, whatever the index and the offset.
pub const LONGEST_LINE: usize = 1104;

// Puts a record's index, its offset and its declared size, each with a space behind it.
fn put_numbers(index: usize, offset: usize, size: u32, out: &mut [u8]) -> usize
    ensures { Put out.old 0 (decimal index ++ space ++ decimal offset ++ space ++ decimal size ++ space) out.new result }
{
    let a = put_decimal(index as u64, 0, out);
    let b = put_byte(b' ', a, out);
    let c = put_decimal(offset as u64, b, out);
    let d = put_byte(b' ', c, out);
    let e = put_decimal(size as u64, d, out);
    put_byte(b' ', e, out)
}

// What a line shows of a record beside its marks and its text, whether that text is held back, and how many replacements it has.
#[derive(Clone, Copy)]
struct Row {
    index: usize,
    offset: usize,
    size: u32,
    held: bool,
    replacements: usize,
}

// Puts a row with a text and with the marks of a record of t bytes at the front of bytes, for a reader that knows a record up to the
// offset age.
fn put_row(row: Row, text: &[u8], bytes: &[u8], t: usize, age: usize, out: &mut [u8]) -> usize
    ensures { Put out.old 0 (laid_out row.index row.offset row.size (letters_in age t bytes.now) (shown_unless row.held text.now) row.replacements) out.new result }
{
    let a = put_numbers(row.index, row.offset, row.size, out);
    let b = put_marks(bytes, t, age, a, out);
    let c = put_byte(b' ', b, out);
    let d = put_shown_text(row.held, text, c, out);
    put_between(b" ", row.replacements as u64, b"\n", d, out)
}

// Whether a row with a text fits into so many bytes of room, with fourteen marks, five spaces and a newline. Where any line fits,
// nothing is counted.
fn row_fits(row: Row, text: &[u8], room: usize) -> bool
    requires { length (decimal row.index) + length (decimal row.offset) + length (decimal row.size) + length (decimal row.replacements) + 20 + length (shown_unless row.held text.now) ≤ 1104 }
    ensures { result ≡ leb (length (decimal row.index) + length (decimal row.offset) + length (decimal row.size) + length (decimal row.replacements) + 20 + length (shown_unless row.held text.now)) room }
{
    if LONGEST_LINE <= room {
        return true;
    }
    let numbers = decimal_length(row.index as u64)
        + decimal_length(row.offset as u64)
        + decimal_length(row.size as u64)
        + decimal_length(row.replacements as u64);
    if room < numbers + 20 {
        return false;
    }
    shown_fits(row.held, text, room - (numbers + 20))
}

// Puts the text of a record at the front of out; of one that is held back nothing, and then nothing was replaced.
fn put_unless_held(held: bool, r: ResTableConfig, out: &mut [u8]) -> Copied
    ensures { Copies out.old 0 (cond held [] (text_of r)) (replacements_unless held (text_replacements r)) out.new result }
{
    if held {
        return Copied {
            at: 0,
            replacements: 0,
        };
    }
    put_text(r, out)
}

// Writes the line of a record of t bytes at the front of bytes, for a caller who knows that it is whole and that the age is one of
// the twelve. Its text is put together once, for its length and for the line.
pub fn write_line(
    bytes: &[u8],
    t: usize,
    age: Age,
    index: usize,
    offset: usize,
    out: &mut [u8],
) -> Result<usize, Refusal>
    ensures { outcome result out.new ≡ written (line_in age.0 t index offset bytes.now) out.old }
{
    let known = age.0 as usize;
    let r = read_to(bytes, lesser(t, known));
    let held = late_bytes(bytes, t, known);
    let mut own = [0u8; LONGEST_TEXT];
    let copied = put_unless_held(held, r, &mut own);
    let row = Row {
        index,
        offset,
        size: r.size,
        held,
        replacements: copied.replacements,
    };
    let text = &own[..copied.at];
    if !row_fits(row, text, out.len()) {
        return Err(Refusal::ShortBuffer);
    }
    Ok(put_row(row, text, bytes, t, known, out))
}

// Writes the line of the record at the front of bytes, for a reader of an age, as the record of an index at an offset.
pub fn record_line(
    bytes: &[u8],
    age: Age,
    index: usize,
    offset: usize,
    out: &mut [u8],
) -> Result<usize, Refusal>
    ensures { outcome result out.new ≡ record_line_of age.0 index offset bytes.now out.old }
{
    age.end()?;
    let taken = take(bytes)?;
    write_line(bytes, taken, age, index, offset, out)
}
