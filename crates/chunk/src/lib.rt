#![tactic(auto)]
// One resource type chunk: its head, and the record within its header. Its entries aren't read.
ghost use Rattle.std.specs.Prelude.{◌≡◌, ◌+◌, ◌<◌, ◌≤◌, ◌||◌, ltb, length};
ghost use Rattle.answers.specs.Tells.{refusal, success, told_of};
ghost use Rattle.buffer.specs.Counted.{counted_outcome};
ghost use Rattle.buffer.specs.Written.{outcome};
ghost use Rattle.reading.specs.Reading.{if_age, parsed_outcome};
ghost use Rattle.record.specs.Table.{le, part};
ghost use Rattle.chunk.specs.Chunk.{chunk_counted, chunk_marks, chunk_parse, chunk_size, chunk_take, head_outcome, header_size, if_head};

use answers::{Counted, Refusal};
use buffer::put;
use marking::marks;
use reading::{Parsed, lesser, read_to, take};
use record::Age;
use text::aged_text;

// Where the record stands in a chunk: behind the head's fixed part, which every header has.
const RECORD_AT: usize = 20;

// How many bytes of the head are shown.
const SHOWN: usize = 10;

// A byte as a number.
fn wide(x: u8) -> usize
    ensures { (result ≡ x) × (result < 256) }
{
    x as usize
}

// The little-endian number of the two bytes at an offset.
fn half(bytes: &[u8], at: usize) -> usize
    requires { at + 2 ≤ length bytes.now }
    ensures { (result ≡ le (part bytes.now at 2)) × (result < 65536) }
{
    wide(bytes[at]) + 256 * wide(bytes[at + 1])
}

// The size of the chunk at the front of bytes.
fn chunk_size(bytes: &[u8]) -> usize
    requires { 20 ≤ length bytes.now }
    ensures { result ≡ chunk_size bytes.now }
{
    half(bytes, 4) + 65536 * half(bytes, 6)
}

// Whether a header and a chunk of these sizes can't stand in n bytes.
fn wrong_sizes(header: usize, size: usize, n: usize) -> bool
    ensures { result ≡ ltb header 20 || ltb size header || ltb n size }
{
    if header < RECORD_AT {
        return true;
    }
    if size < header {
        return true;
    }
    n < size
}

// Where the header ends of the chunk whose head stands at the front of bytes.
fn header_end(bytes: &[u8]) -> Result<usize, Refusal>
    ensures { told_of result ≡ if_head bytes.now refusal (success (header_size bytes.now)) }
{
    if bytes.len() < RECORD_AT {
        return Err(Refusal::TooFewBytes);
    }
    if half(bytes, 0) != 0x0201 {
        return Err(Refusal::WrongType);
    }
    let header = half(bytes, 2);
    if wrong_sizes(header, chunk_size(bytes), bytes.len()) {
        return Err(Refusal::WrongSizes);
    }
    Ok(header)
}

// The same for a reader of an age.
fn aged_header_end(bytes: &[u8], age: Age) -> Result<usize, Refusal>
    ensures { told_of result ≡ if_age age.0 refusal (if_head bytes.now refusal (success (header_size bytes.now))) }
{
    age.end()?;
    header_end(bytes)
}

// How far it is from the chunk at the front of bytes to the next one.
pub fn take_chunk(bytes: &[u8]) -> Result<usize, Refusal>
    ensures { told_of result ≡ chunk_take bytes.now }
{
    let header = header_end(bytes)?;
    take(&bytes[RECORD_AT..header])?;
    Ok(chunk_size(bytes))
}

// Writes what is shown of the head of the chunk at the front of bytes: id, flags, entry count and entries start as they are stored.
pub fn chunk_head(bytes: &[u8], out: &mut [u8]) -> Result<usize, Refusal>
    ensures { outcome result out.new ≡ head_outcome bytes.now out.old }
{
    take_chunk(bytes)?;
    if out.len() < SHOWN {
        return Err(Refusal::ShortBuffer);
    }
    let at = put(&bytes[8..10], 0, out);
    put(&bytes[12..RECORD_AT], at, out);
    Ok(SHOWN)
}

// Parses the record of the chunk at the front of bytes for a reader of an age. What is taken is the chunk.
pub fn parse_chunk(bytes: &[u8], age: Age) -> Result<Parsed, Refusal>
    ensures { parsed_outcome result ≡ chunk_parse age.0 bytes.now }
{
    let end = age.end()?;
    let header = header_end(bytes)?;
    let part = &bytes[RECORD_AT..header];
    let taken = take(part)?;
    Ok(Parsed {
        taken: chunk_size(bytes),
        record: read_to(part, lesser(taken, end)),
    })
}

// Writes the text of the record of the chunk at the front of bytes for a reader of an age.
pub fn chunk_text(bytes: &[u8], age: Age, out: &mut [u8]) -> Result<Counted, Refusal>
    ensures { counted_outcome result out.new ≡ chunk_counted age.0 bytes.now out.old }
{
    let header = aged_header_end(bytes, age)?;
    aged_text(&bytes[RECORD_AT..header], age, out)
}

// Writes the fourteen marks of the record of the chunk at the front of bytes for a reader of an age.
pub fn chunk_marks(bytes: &[u8], age: Age, out: &mut [u8]) -> Result<usize, Refusal>
    ensures { outcome result out.new ≡ chunk_marks age.0 bytes.now out.old }
{
    let header = aged_header_end(bytes, age)?;
    marks(&bytes[RECORD_AT..header], age, out)
}
