#![tactic(auto)]
// The marks of a record's fields, and whether a reader of an age holds the record back.
ghost use Rattle.std.specs.Prelude.{◌≡◌};
ghost use Rattle.answers.specs.Tells.{told_of};
ghost use Rattle.buffer.specs.Put.{Put};
ghost use Rattle.buffer.specs.Written.{outcome};
ghost use Rattle.marking.specs.Marks.{held_of, held_tells, late_bytes, letters_in, mark_between, marks_outcome, word_in, word_told};

use answers::Refusal;
use mark::{Mark, put_letters, write_letters};
use reading::{lesser, take};
use record::{Age, ENDS};

// Whether one of the first n of the bytes, from the offset from on, isn't zero.
pub fn late_bytes(bytes: &[u8], n: usize, from: usize) -> bool
    ensures { result ≡ late_bytes bytes.now n from }
{
    let end = lesser(n, bytes.len());
    from < end && bytes[from..end].iter().any(|b| *b != 0)
}

// Whether a reader of an age holds back the record at the front of bytes.
pub fn held_back(bytes: &[u8], age: Age) -> Result<bool, Refusal>
    ensures { held_tells result ≡ held_of age.0 bytes.now }
{
    let from = age.end()?;
    let taken = take(bytes)?;
    Ok(late_bytes(bytes, taken, from))
}

// The mark of a field that goes from start to end, in a record of t bytes at the front of bytes.
fn mark_of(bytes: &[u8], t: usize, age: usize, start: usize, end: usize) -> Mark
    ensures { result ≡ mark_between age t bytes.now start end }
{
    if age < end {
        return Mark::Unknown;
    }
    if t < end {
        return Mark::Absent;
    }
    if late_bytes(bytes, end, start) {
        Mark::Filled
    } else {
        Mark::Blank
    }
}

// The fourteen marks of a record of t bytes at the front of bytes, in one word, from the last field's on. A field starts where the one before
// it ends.
fn word_in(bytes: &[u8], t: usize, age: usize) -> u32
    ensures { result ≡ word_in age t bytes.now }
{
    let ends = ENDS;
    let mut word = 0;
    for f in (1..15).rev() {
        let mark = mark_of(bytes, t, age, ends[f - 1], ends[f]);
        word = word * 4 + mark.bits();
    }
    word
}

// Gives the fourteen marks of the record at the front of bytes, for a reader of an age, in one word.
pub fn marks_word(bytes: &[u8], age: Age) -> Result<u32, Refusal>
    ensures { told_of result ≡ word_told age.0 bytes.now }
{
    let end = age.end()?;
    let taken = take(bytes)?;
    Ok(word_in(bytes, taken, end))
}

// Puts the letters of the fourteen marks of a record of t bytes at the front of bytes. It refuses nothing.
pub fn put_marks(bytes: &[u8], t: usize, age: usize, at: usize, out: &mut [u8]) -> usize
    ensures { Put out.old at (letters_in age t bytes.now) out.new result }
{
    put_letters(word_in(bytes, t, age), at, out)
}

// Writes the letters of the fourteen marks of the record at the front of bytes, for a reader of an age.
pub fn marks(bytes: &[u8], age: Age, out: &mut [u8]) -> Result<usize, Refusal>
    ensures { outcome result out.new ≡ marks_outcome age.0 bytes.now out.old }
{
    let word = marks_word(bytes, age)?;
    write_letters(word, out)
}
