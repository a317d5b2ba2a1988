#![tactic(auto)]
// The lines of a listing, one at a time in a lent buffer. Each call looks only at the record at its cursor.
ghost use Rattle.std.specs.Prelude.{◌≡◌, true, cond, ◌≤◌, eqb, length};
ghost use Rattle.answers.specs.Tells.{told_of};
ghost use Rattle.buffer.specs.Put.{Put};
ghost use Rattle.buffer.specs.Written.{outcome, written};
ghost use Rattle.record.specs.Ages.{is_age};
ghost use Rattle.lines.specs.Lines.{after, age_line, line_at, line_of, line_written, lined_outcome, reason_words, stop_line};

use answers::{Refusal, Told};
use buffer::{decimal_length, put_between, put_byte, put_decimal, put_label};
use record::Age;
use record_line::write_line;
use runs::{Stop, front_at};

// A listing takes no more bytes.
pub const MOST_BYTES: usize = 65536;

// Where a listing goes on.
#[derive(Clone, Copy)]
pub enum Cursor {
    // At the line with the age.
    Start,
    // At the record of an index that begins at an offset, or, where none stands there whole, at the last line.
    Record { index: usize, offset: usize },
    // Behind the last line.
    End,
}

// The answer of a call for a line, and the cursor with which the listing goes on.
#[derive(Clone, Copy)]
pub struct Lined {
    pub answer: Result<usize, Refusal>,
    pub cursor: Cursor,
}

// The cursor with which a listing begins.
pub fn first() -> Cursor
    ensures { result ≡ Cursor.Start }
{
    Cursor::Start
}

// Writes the line with the age.
pub fn age_line(age: Age, out: &mut [u8]) -> Result<usize, Refusal>
    ensures { outcome result out.new ≡ written (age_line age.0) out.old }
{
    if out.len() < 5 + decimal_length(age.0 as u64) {
        return Err(Refusal::ShortBuffer);
    }
    Ok(put_between(b"age ", age.0 as u64, b"\n", 0, out))
}

// Puts the number that a stop tells, and behind a 2 the row that it carries.
fn put_reason(told: Told, at: usize, out: &mut [u8]) -> usize
    ensures { Put out.old at (reason_words told) out.new result }
{
    let a = put_decimal(told.number as u64, at, out);
    if told.number == 2 {
        put_label(b" ", told.carried as u64, a, out)
    } else {
        a
    }
}

// How many bytes the number has, and behind a 2 the row.
fn reason_length(told: Told) -> usize
    ensures { result ≡ length (reason_words told) }
{
    let n = decimal_length(told.number as u64);
    if told.number != 2 {
        return n;
    }
    n + 1 + decimal_length(told.carried as u64)
}

// Writes the line with the offset where a run stopped, and why.
pub fn stop_line(offset: usize, stop: Stop, out: &mut [u8]) -> Result<usize, Refusal>
    ensures { outcome result out.new ≡ written (stop_line offset stop) out.old }
{
    let told = stop.told();
    if out.len() < 7 + decimal_length(offset as u64) + reason_length(told) {
        return Err(Refusal::ShortBuffer);
    }
    let a = put_between(b"stop ", offset as u64, b" ", 0, out);
    let b = put_reason(told, a, out);
    Ok(put_byte(b'\n', b, out))
}

// Goes on at next where a line was written, and stays at a cursor where it was refused.
fn go_on(answer: Result<usize, Refusal>, cursor: Cursor, next: Cursor) -> Lined
    ensures { (result.answer ≡ answer) × (result.cursor ≡ cond (eqb (told_of answer).number 0) next cursor) }
{
    match answer {
        Ok(n) => Lined {
            answer: Ok(n),
            cursor: next,
        },
        Err(why) => Lined {
            answer: Err(why),
            cursor,
        },
    }
}

// Writes the line of the record at an offset, or where none stands whole the last line.
fn line_at(bytes: &[u8], age: Age, index: usize, offset: usize, out: &mut [u8]) -> Lined
    requires { (true ≡ is_age age.0) × (length bytes.now ≤ 65536) }
    ensures { lined_outcome result out.new ≡ line_written (line_at age.0 bytes.now (Cursor.Record index offset)) (Cursor.Record index offset) (after bytes.now (Cursor.Record index offset)) out.old }
{
    if offset < index {
        return Lined {
            answer: Ok(0),
            cursor: Cursor::End,
        };
    }
    let here = Cursor::Record { index, offset };
    match front_at(bytes, offset) {
        Ok(n) => {
            let answer = write_line(&bytes[offset..], n, age, index, offset, out);
            let next = Cursor::Record {
                index: index + 1,
                offset: offset + n,
            };
            go_on(answer, here, next)
        }
        Err(stop) => {
            let answer = stop_line(offset, stop, out);
            go_on(answer, here, Cursor::End)
        }
    }
}

// Writes the line at a cursor of bytes, for a reader of an age, and gives the cursor behind it; a line that is refused isn't lost.
pub fn line(bytes: &[u8], age: Age, cursor: Cursor, out: &mut [u8]) -> Lined
    ensures { lined_outcome result out.new ≡ line_of age.0 bytes.now cursor out.old }
{
    if MOST_BYTES < bytes.len() {
        return Lined {
            answer: Err(Refusal::TooMuchInput),
            cursor,
        };
    }
    if !age.is_age() {
        return Lined {
            answer: Err(Refusal::NotAnAge),
            cursor,
        };
    }
    match cursor {
        Cursor::Start => {
            let answer = age_line(age, out);
            go_on(
                answer,
                Cursor::Start,
                Cursor::Record {
                    index: 0,
                    offset: 0,
                },
            )
        }
        Cursor::Record { index, offset } => line_at(bytes, age, index, offset, out),
        Cursor::End => Lined {
            answer: Ok(0),
            cursor: Cursor::End,
        },
    }
}
