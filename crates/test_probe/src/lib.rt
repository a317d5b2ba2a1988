#![tactic(auto)]
// What the benchmark and the comparison at scale call of the port beyond the C face, each from bytes and answering one number.
ghost use Rattle.std.specs.Prelude.{◌≡◌};
ghost use Rattle.buffer.specs.Written.{outcome};
ghost use Rattle.lines.specs.Lines.{line_of};
ghost use Rattle.reading.specs.Reading.{parse_of};
ghost use Rattle.record.specs.Blank.{blank_record, with_size};
ghost use Rattle.record_line.specs.RecordLine.{record_line_of};
ghost use Rattle.order.specs.Order.{equal_of, order_of, ordering_tells};
ghost use Rattle.runs.specs.Runs.{run_of};
ghost use Rattle.text.specs.Text.{plain_text};
ghost use Rattle.test_probe.specs.Probe.{Comes, cursor_packed, end_packed, end_row, paired, write_sized};

use answers::{Refusal, Told};
use lines::{Cursor, first, line};
use order::{cmp, eq};
use reading::parse;
use record::{Age, ResTableConfig, blank};
use record_line::record_line;
use runs::walk;
use text::plain_text;
use writing::write;

// The record that parsing bytes gives, and where they are refused the one that holds nothing.
fn parsed_or_blank(bytes: &[u8]) -> ResTableConfig
    ensures { result ≡ (parse_of bytes.now).gives }
{
    match parse(bytes) {
        Ok(parsed) => parsed.record,
        Err(_) => blank(),
    }
}

// Whether the record that parsing bytes gives equals the one that holds nothing: so every field of it is looked at.
#[unsafe(no_mangle)]
pub extern "C" fn probe_blank(bytes: &[u8]) -> bool
    ensures { result ≡ equal_of (parse_of bytes.now).gives blank_record }
{
    eq(parsed_or_blank(bytes), blank())
}

// Writes the plain text of the record at the front of bytes, and answers how many bytes it has, 0 where it is refused.
#[unsafe(no_mangle)]
pub extern "C" fn probe_text(bytes: &[u8], out: &mut [u8]) -> usize
    ensures value { result ≡ (plain_text bytes.now out.old).tells.amount }
    ensures out_after { out.new ≡ (plain_text bytes.now out.old).leaves }
{
    match plain_text(bytes, out) {
        Ok(counted) => counted.length,
        Err(_) => 0,
    }
}

// The order of the records that parsing a and parsing b give: 0 for Less, 1 for Equal, 2 for Greater.
#[unsafe(no_mangle)]
pub extern "C" fn probe_order(a: &[u8], b: &[u8]) -> u32
    ensures { result ≡ ordering_tells (order_of (parse_of a.now).gives (parse_of b.now).gives) }
{
    let order = cmp(parsed_or_blank(a), parsed_or_blank(b));
    order.number()
}

// Two numbers as one: the first in the upper half, and what the lower half holds of the second.
fn pair(high: u32, low: usize) -> u64
    ensures { result ≡ paired high low }
{
    high as u64 * 4294967296 + low as u64 % 4294967296
}

// A cursor as one number: a record's offset under its index, or one of the two greatest.
fn cursor_packed(cursor: Cursor) -> u64
    ensures { result ≡ cursor_packed cursor }
{
    match cursor {
        Cursor::Start => 18446744073709551614,
        Cursor::Record { index, offset } => pair((index % 4294967296) as u32, offset),
        Cursor::End => 18446744073709551615,
    }
}

// Writes the first line of a listing of bytes at an age.
#[unsafe(no_mangle)]
pub extern "C" fn probe_first_line(bytes: &[u8], age: u32, out: &mut [u8]) -> u64
    ensures { Comes result out.new (line_of age bytes.now Cursor.Start out.old).does }
{
    let lined = line(bytes, Age(age), first(), out);
    Told::from(lined.answer).packed()
}

// Writes the line of the record of an index at an offset in a listing of bytes at an age, or where none stands there the last one.
#[unsafe(no_mangle)]
pub extern "C" fn probe_line(
    bytes: &[u8],
    age: u32,
    index: usize,
    offset: usize,
    out: &mut [u8],
) -> u64
    ensures { Comes result out.new (line_of age bytes.now (Cursor.Record index offset) out.old).does }
{
    let lined = line(bytes, Age(age), Cursor::Record { index, offset }, out);
    Told::from(lined.answer).packed()
}

// Writes that line too, and answers where the listing goes on.
#[unsafe(no_mangle)]
pub extern "C" fn probe_next(
    bytes: &[u8],
    age: u32,
    index: usize,
    offset: usize,
    out: &mut [u8],
) -> u64
    ensures value { result ≡ cursor_packed (line_of age bytes.now (Cursor.Record index offset) out.old).goes }
    ensures out_after { out.new ≡ (line_of age bytes.now (Cursor.Record index offset) out.old).does.leaves }
{
    let lined = line(bytes, Age(age), Cursor::Record { index, offset }, out);
    let cursor = lined.cursor;
    cursor_packed(cursor)
}

// Writes the line of the record at the front of bytes, as the record of an index at an offset, for a reader of an age.
#[unsafe(no_mangle)]
pub extern "C" fn probe_record_line(
    bytes: &[u8],
    age: u32,
    index: usize,
    offset: usize,
    out: &mut [u8],
) -> u64
    ensures { Comes result out.new (record_line_of age index offset bytes.now out.old) }
{
    Told::from(record_line(bytes, Age(age), index, offset, out)).packed()
}

// Where the run of bytes that begins at an offset stops, under the number with which it does.
#[unsafe(no_mangle)]
pub extern "C" fn probe_walk(bytes: &[u8], offset: usize) -> u64
    ensures { result ≡ end_packed (run_of bytes.now offset) }
{
    let end = walk(bytes, offset);
    let stop = end.stop;
    pair(stop.told().number, end.offset)
}

// The row that the end of that run carries: of the field that is cut there, and 0 where the run stops for another reason.
#[unsafe(no_mangle)]
pub extern "C" fn probe_row(bytes: &[u8], offset: usize) -> usize
    ensures { result ≡ end_row (run_of bytes.now offset) }
{
    let end = walk(bytes, offset);
    let stop = end.stop;
    stop.told().carried
}

// How many records the run of bytes that begins at an offset has.
#[unsafe(no_mangle)]
pub extern "C" fn probe_records(bytes: &[u8], offset: usize) -> usize
    ensures { result ≡ (run_of bytes.now offset).records }
{
    let end = walk(bytes, offset);
    end.records
}

// The record with another size.
fn sized(mut r: ResTableConfig, size: u32) -> ResTableConfig
    ensures { result ≡ with_size r size }
{
    r.size = size;
    r
}

// Writes the bytes of the record at the front of bytes, with another size.
fn write_sized(bytes: &[u8], size: u32, out: &mut [u8]) -> Result<usize, Refusal>
    ensures { outcome result out.new ≡ write_sized bytes.now size out.old }
{
    let parsed = parse(bytes)?;
    write(sized(parsed.record, size), out)
}

// Writes those bytes.
#[unsafe(no_mangle)]
pub extern "C" fn probe_write(bytes: &[u8], size: u32, out: &mut [u8]) -> u64
    ensures { Comes result out.new (write_sized bytes.now size out.old) }
{
    Told::from(write_sized(bytes, size, out)).packed()
}
