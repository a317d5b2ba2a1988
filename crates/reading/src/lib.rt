#![tactic(auto)]
// Parsing: the record at the front of some bytes, plain or as a reader of an age reads it.
mod fields;

ghost use Rattle.std.specs.Prelude.{◌≡◌, min};
ghost use Rattle.answers.specs.Tells.{told_of};
ghost use Rattle.reading.specs.Cut.{cut_at, lacking};
ghost use Rattle.reading.specs.Reading.{aged, take_of, if_whole, parse_aged, parse_of, parse_refused, parse_took, parsed_outcome, taken};
ghost use Rattle.reading.specs.ReadTo.{read_to};

use answers::Refusal;
use record::{Age, ResTableConfig, field_end};

// What parsing gives: how many bytes the record takes, and the record.
#[derive(Clone, Copy)]
pub struct Parsed {
    pub taken: usize,
    pub record: ResTableConfig,
}

// Whether a field is cut in n bytes of a record of a size: the size holds it, and it ends past them.
fn is_cut(n: usize, size: usize, f: usize) -> bool
    ensures { result ≡ cut_at n size f }
{
    let end = field_end(f);
    end <= size && n < end
}

// Why n bytes are no record of a size, where they are fewer: a field is cut, or only undecoded bytes are lacking.
fn lacking(n: usize, size: usize) -> Refusal
    ensures { result ≡ lacking n size }
{
    for row in 0..15 {
        if is_cut(n, size, row) {
            return Refusal::FieldCut(row);
        }
    }
    Refusal::UndecodedCut
}

// How many bytes the record at the front of bytes takes.
pub fn take(bytes: &[u8]) -> Result<usize, Refusal>
    ensures { told_of result ≡ take_of bytes.now }
{
    if bytes.len() < 16 {
        return Err(Refusal::TooFewBytes);
    }
    let size = fields::word(bytes, 0) as usize;
    if bytes.len() < size {
        return Err(lacking(bytes.len(), size));
    }
    Ok(size.max(16))
}

// The lesser of two numbers.
pub fn lesser(a: usize, b: usize) -> usize
    ensures { result ≡ min a b }
{
    a.min(b)
}

// The record of the fields that end within a limit and within the bytes, for a caller who knows that a whole record stands at the
// front. It refuses nothing.
pub fn read_to(bytes: &[u8], limit: usize) -> ResTableConfig
    ensures { result ≡ read_to limit bytes.now }
{
    fields::record_to(bytes, lesser(limit, bytes.len()))
}

// Parses for a reader that knows a record up to the offset age.
fn parse_to(bytes: &[u8], age: usize) -> Result<Parsed, Refusal>
    ensures { parsed_outcome result ≡ if_whole bytes.now parse_refused (parse_took (taken bytes.now) (aged age bytes.now)) }
{
    let taken = take(bytes)?;
    let record = fields::record_to(bytes, lesser(taken, age));
    Ok(Parsed { taken, record })
}

// Parses the record at the front of bytes.
pub fn parse(bytes: &[u8]) -> Result<Parsed, Refusal>
    ensures { parsed_outcome result ≡ parse_of bytes.now }
{
    parse_to(bytes, 64)
}

// Parses the record at the front of bytes for a reader of an age.
pub fn parse_aged(bytes: &[u8], age: Age) -> Result<Parsed, Refusal>
    ensures { parsed_outcome result ≡ parse_aged age.0 bytes.now }
{
    let end = age.end()?;
    parse_to(bytes, end)
}
