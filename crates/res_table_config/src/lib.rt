#![tactic(auto)]
// The C face: fifteen calls on numbers and byte slices, for the intake tool: seven on records, one on the marks in one word, two on the index
// of a run, one on directory names, four on type chunks. A slice arrives as a pointer and then a length.
//
// Each answers one number: 01's number times 2^32, and the amount of a success or what a refusal carries. So a success is below 2^32,
// and of these calls' refusals two have more than their number: 2 the row of the field that is cut, 11 the offset of a part. A refusal
// changes no lent byte. Ages arrive as plain numbers.
ghost use Rattle.std.specs.Prelude.{◌≡◌};
ghost use Rattle.answers.specs.Tells.{tells, told_of};
ghost use Rattle.chunk.specs.Chunk.{chunk_marks, chunk_take, chunk_text, head_outcome};
ghost use Rattle.finding.specs.Finding.{find_told};
ghost use Rattle.index.specs.Index.{index_written};
ghost use Rattle.mark.specs.Word.{letters_outcome};
ghost use Rattle.marking.specs.Marks.{marks_outcome, word_told};
ghost use Rattle.names.specs.Named.{name_written};
ghost use Rattle.reading.specs.Reading.{take_of};
ghost use Rattle.record.specs.Table.{Bytes};
ghost use Rattle.text.specs.Counted.{replacements_of};
ghost use Rattle.text.specs.Text.{aged_text, plain_text};
ghost use Rattle.res_table_config.specs.Face.{answer_outcome, answer_tells, order_told};
ghost use Rattle.res_table_config.specs.Small.{Small};

use answers::{Amount, Refusal, Told};
use chunk::{chunk_head, chunk_marks, chunk_text, take_chunk};
use finding::find_in;
use index::index;
use mark::write_letters;
use marking::{marks, marks_word};
use names::write_name;
use order::cmp;
use reading::{parse, take};
use record::Age;
use text::{aged_text, plain_text, replacements};

// What the type of a slice says of its elements, for the callers' proofs: it does nothing.
fn are_bytes(bytes: &[u8])
    ensures { Bytes bytes.now }
{}

// What an answer tells as one number, from which it comes back.
fn packed<A: Amount + Drop>(answer: Result<A, Refusal>) -> u64
    requires { Small (tells A.amount_of answer) }
    ensures { answer_tells result ≡ tells A.amount_of answer }
{
    Told::from(answer).packed()
}

// How many bytes the record at the front of bytes takes.
#[unsafe(no_mangle)]
pub extern "C" fn res_table_config_take(bytes: &[u8]) -> u64
    ensures { answer_tells result ≡ take_of bytes.now }
{
    are_bytes(bytes);
    packed(take(bytes))
}

// Writes the plain text of the record at the front of bytes.
#[unsafe(no_mangle)]
pub extern "C" fn res_table_config_text(bytes: &[u8], out: &mut [u8]) -> u64
    ensures { answer_outcome result out.new ≡ plain_text bytes.now out.old }
{
    are_bytes(bytes);
    packed(plain_text(bytes, out))
}

// Writes the text of the record at the front of bytes for a reader of an age; a record that is held back at it is refused.
#[unsafe(no_mangle)]
pub extern "C" fn res_table_config_aged_text(bytes: &[u8], age: u32, out: &mut [u8]) -> u64
    ensures { answer_outcome result out.new ≡ aged_text age bytes.now out.old }
{
    are_bytes(bytes);
    packed(aged_text(bytes, Age(age), out))
}

// How many replacements the text of the record at the front of bytes has for a reader of an age.
#[unsafe(no_mangle)]
pub extern "C" fn res_table_config_replaced(bytes: &[u8], age: u32) -> u64
    ensures { answer_tells result ≡ replacements_of age bytes.now }
{
    are_bytes(bytes);
    packed(replacements(bytes, Age(age)))
}

// Writes the letters of the fourteen marks of the record at the front of bytes, for a reader of an age.
#[unsafe(no_mangle)]
pub extern "C" fn res_table_config_marks(bytes: &[u8], age: u32, out: &mut [u8]) -> u64
    ensures { answer_outcome result out.new ≡ marks_outcome age bytes.now out.old }
{
    packed(marks(bytes, Age(age), out))
}

// The fourteen marks of the record at the front of bytes, for a reader of an age, in one word.
#[unsafe(no_mangle)]
pub extern "C" fn res_table_config_marks_word(bytes: &[u8], age: u32) -> u64
    ensures { answer_tells result ≡ word_told age bytes.now }
{
    packed(marks_word(bytes, Age(age)))
}

// Writes the letters of the fourteen marks of a word.
#[unsafe(no_mangle)]
pub extern "C" fn res_table_config_marks_letters(word: u32, out: &mut [u8]) -> u64
    ensures { answer_outcome result out.new ≡ letters_outcome word out.old }
{
    packed(write_letters(word, out))
}

// The number of the order of the records at the front of a and of b.
fn order_in(a: &[u8], b: &[u8]) -> Result<u32, Refusal>
    ensures { told_of result ≡ order_told a.now b.now }
{
    let first = parse(a)?;
    let second = parse(b)?;
    Ok(cmp(first.record, second.record).number())
}

// The order of the records at the front of a and of b: 0 for Less, 1 for Equal, 2 for Greater.
#[unsafe(no_mangle)]
pub extern "C" fn res_table_config_order(a: &[u8], b: &[u8]) -> u64
    ensures { answer_tells result ≡ order_told a.now b.now }
{
    packed(order_in(a, b))
}

// Writes the index of the run at the front of bytes: an entry for each distinct record, in rising order.
#[unsafe(no_mangle)]
pub extern "C" fn res_table_config_index(bytes: &[u8], out: &mut [u8]) -> u64
    ensures { answer_outcome result out.new ≡ index_written bytes.now out.old }
{
    packed(index(bytes, out).answer)
}

// Finds the entry of the record at the front of bytes: 1 + its place among the entries, and 0 where there is none.
#[unsafe(no_mangle)]
pub extern "C" fn res_table_config_find(entries: &[u8], bytes: &[u8]) -> u64
    ensures { answer_tells result ≡ find_told entries.now bytes.now }
{
    packed(find_in(entries, bytes))
}

// Writes the 64 bytes of the record for which a directory name stands.
#[unsafe(no_mangle)]
pub extern "C" fn res_table_config_named(name: &[u8], out: &mut [u8]) -> u64
    ensures { answer_outcome result out.new ≡ name_written name.now out.old }
{
    packed(write_name(name, out))
}

// How far it is from the type chunk at the front of bytes to the next one.
#[unsafe(no_mangle)]
pub extern "C" fn res_table_type_take(bytes: &[u8]) -> u64
    ensures { answer_tells result ≡ chunk_take bytes.now }
{
    are_bytes(bytes);
    packed(take_chunk(bytes))
}

// Writes id, flags, entry count and entries start of the type chunk at the front of bytes, as they are stored.
#[unsafe(no_mangle)]
pub extern "C" fn res_table_type_head(bytes: &[u8], out: &mut [u8]) -> u64
    ensures { answer_outcome result out.new ≡ head_outcome bytes.now out.old }
{
    packed(chunk_head(bytes, out))
}

// Writes the text of the record of the type chunk at the front of bytes for a reader of an age.
#[unsafe(no_mangle)]
pub extern "C" fn res_table_type_aged_text(bytes: &[u8], age: u32, out: &mut [u8]) -> u64
    ensures { answer_outcome result out.new ≡ chunk_text age bytes.now out.old }
{
    are_bytes(bytes);
    packed(chunk_text(bytes, Age(age), out))
}

// Writes the fourteen marks of the record of the type chunk at the front of bytes, for a reader of an age.
#[unsafe(no_mangle)]
pub extern "C" fn res_table_type_marks(bytes: &[u8], age: u32, out: &mut [u8]) -> u64
    ensures { answer_outcome result out.new ≡ chunk_marks age bytes.now out.old }
{
    packed(chunk_marks(bytes, Age(age), out))
}
