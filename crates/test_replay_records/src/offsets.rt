// What the port answers to each kind of question on an offset of a run, by its tag. A payload is the age in four bytes, the offset
// in eight, how many bytes are lent in four, the lent bytes, and the run.
ghost use Rattle.std.specs.Prelude.{◌≡◌};
ghost use Rattle.record.specs.Ages.{default_age};
ghost use Rattle.runs.specs.Runs.{step_of, step_outcome};

use crate::records::{put_fields, put_told};
use answers::{Counted, Refusal, Told};
use reader::RunReader;
use record::Age;
use runs::Stepped;

// Where the lent bytes stand in an answer, behind what the call tells and the replacements of its text.
const LENT: usize = 28;

// Answers a question at the front of `out`, and gives the answer's length. A tag that is none of these has no answer.
pub(crate) fn answer(tag: u8, payload: &[u8], out: &mut [u8]) -> usize {
    if payload.len() < 16 {
        return 0;
    }
    let age = Age((test_frames::four(payload) % 4294967296) as u32);
    let offset = test_frames::eight(&payload[4..]);
    let lent = test_frames::four(&payload[12..]);
    let behind = &payload[16..];
    let n = test_frames::front(lent, behind);
    match tag {
        37..=39 => put_stepped(stepped(tag, &behind[n..], offset, age), out),
        40 => held(&behind[n..], offset, age, out),
        41 | 42 => wrote(tag, &behind[n..], offset, age, &behind[..n], out),
        45 => walked(&behind[n..], offset, out),
        _ => 0,
    }
}

// The step at an offset: by itself, through a reader made there, and through one of the default age that is moved there.
fn stepped(tag: u8, bytes: &[u8], offset: usize, age: Age) -> Stepped {
    match tag {
        37 => runs::step_at(bytes, offset, age),
        38 => reader::read_at(bytes, offset, age),
        _ => sought(bytes, offset),
    }
}

// Reads the record at an offset through a reader that is made without one and moved there.
fn sought(bytes: &[u8], offset: usize) -> Stepped
    ensures { step_outcome result ≡ step_of default_age bytes.now offset }
{
    RunReader::new(bytes).moved(offset).next()
}

// Puts what a step tells, where the next one goes on, and the record.
fn put_stepped(stepped: Stepped, out: &mut [u8]) -> usize {
    let step = stepped.answer;
    let at = put_told(step.told(), out);
    let at = test_frames::put_eight(stepped.next, at, out);
    let record = stepped.record;
    put_fields(record, at, out)
}

// Whether the record at an offset is held back.
fn held(bytes: &[u8], offset: usize, age: Age, out: &mut [u8]) -> usize {
    let from = test_frames::front(offset, bytes);
    put_told(Told::from(marking::held_back(&bytes[from..], age)), out)
}

// Why the run from an offset on stops, where, and how many records it has.
fn walked(bytes: &[u8], offset: usize, out: &mut [u8]) -> usize {
    let end = runs::walk(bytes, offset);
    let stop = end.stop;
    let at = put_told(stop.told(), out);
    let at = test_frames::put_eight(end.offset, at, out);
    test_frames::put_eight(end.records, at, out)
}

// What a call that writes tells, how many replacements its text has, and the lent bytes as it leaves them.
fn wrote(tag: u8, bytes: &[u8], offset: usize, age: Age, lent: &[u8], out: &mut [u8]) -> usize {
    let end = buffer::put(lent, LENT, out);
    let n = test_frames::front(end, out);
    if n < LENT {
        return 0;
    }
    let answer = written(tag, bytes, offset, age, &mut out[LENT..n]);
    let at = put_told(Told::from(answer), out);
    let replacements = answer.map_or(0, |counted| counted.replacements);
    test_frames::put_eight(replacements, at, out);
    n
}

// Writes the text or the marks of the record at an offset; marks have no replacements.
fn written(
    tag: u8,
    bytes: &[u8],
    offset: usize,
    age: Age,
    out: &mut [u8],
) -> Result<Counted, Refusal> {
    match tag {
        41 => shown_at::text_at(bytes, offset, age, out),
        _ => Counted::of(shown_at::marks_at(bytes, offset, age, out), 0),
    }
}
