#![tactic(auto)]
// The text of a record: of a parsed one, of bytes, and of bytes for a reader of some age.
ghost use Rattle.std.specs.Prelude.{◌≡◌, leb, length};
ghost use Rattle.answers.specs.Tells.{told_of};
ghost use Rattle.buffer.specs.Counted.{counted_outcome, counting};
ghost use Rattle.buffer.specs.Written.{written};
ghost use Rattle.locale.specs.Subtags.{text_replacements};
ghost use Rattle.places.specs.Places.{text_of};
ghost use Rattle.text.specs.Text.{shown_of};
ghost use Rattle.text.specs.Counted.{counted_plain, counted_aged, replacements_of};

use answers::{Counted, Refusal};
use locale::replacements_in;
use marking::late_bytes;
use places_all::put_text;
use reading::{lesser, parse, read_to, take};
use record::{Age, ResTableConfig};
use text_length::text_length;

// No text of a record is longer, and one is as long.
pub const LONGEST_TEXT: usize = 344;

// Whether the text of a record fits into so many bytes of room. Where any text does, its length isn't asked.
fn fits(r: ResTableConfig, room: usize) -> bool
    ensures { result ≡ leb (length (text_of r)) room }
{
    if LONGEST_TEXT <= room {
        return true;
    }
    text_length(r) <= room
}

// Writes the text of a record, as 000's `as_string` has it; where out is shorter, it is left as it is.
pub fn as_string(r: ResTableConfig, out: &mut [u8]) -> Result<Counted, Refusal>
    ensures { counted_outcome result out.new ≡ counting (text_replacements r) (written (text_of r) out.old) }
{
    if !fits(r, out.len()) {
        return Err(Refusal::ShortBuffer);
    }
    let counted = Counted::from(put_text(r, out));
    Ok(counted)
}

// Writes the plain text of the record at the front of bytes.
pub fn plain_text(bytes: &[u8], out: &mut [u8]) -> Result<Counted, Refusal>
    ensures { counted_outcome result out.new ≡ counted_plain bytes.now out.old }
{
    let parsed = parse(bytes)?;
    as_string(parsed.record, out)
}

// The record at the front of bytes as a reader of an age is shown it; one that is held back at it is refused. Inline, for the
// same reason as the reading of its fields.
#[inline(always)]
fn shown(bytes: &[u8], age: Age) -> Result<ResTableConfig, Refusal>
    ensures { result ≡ shown_of age.0 bytes.now }
{
    let end = age.end()?;
    let taken = take(bytes)?;
    if late_bytes(bytes, taken, end) {
        return Err(Refusal::HeldBack);
    }
    Ok(read_to(bytes, lesser(taken, end)))
}

// Writes the text of the record at the front of bytes for a reader of an age; a record that is held back at it is refused.
pub fn aged_text(bytes: &[u8], age: Age, out: &mut [u8]) -> Result<Counted, Refusal>
    ensures { counted_outcome result out.new ≡ counted_aged age.0 bytes.now out.old }
{
    let record = shown(bytes, age)?;
    as_string(record, out)
}

// How many replacements the text of the record at the front of bytes has for a reader of an age.
pub fn replacements(bytes: &[u8], age: Age) -> Result<usize, Refusal>
    ensures { told_of result ≡ replacements_of age.0 bytes.now }
{
    Ok(replacements_in(shown(bytes, age)?))
}
