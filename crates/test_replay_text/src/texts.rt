// What the port answers to each kind of question on texts, by its tag. The table of tests/rust has the same tags.
use answers::{Counted, Refusal};
use record::ResTableConfig;

// What the answer begins with where there is no whole record, or where the port refuses to write: a text's answer begins with 0.
const REFUSED: u8 = 255;

// Where the text stands in an answer: behind a 0, and its replacements in eight bytes.
const TEXT: usize = 9;

// Answers a question at the front of `out`, and gives the answer's length.
pub(crate) fn answer(tag: u8, payload: &[u8], out: &mut [u8]) -> usize {
    if out.len() < TEXT {
        return 0;
    }
    match written(tag, payload, &mut out[TEXT..]) {
        Ok(counted) => {
            let at = buffer::put_byte(0, 0, out);
            let at = test_frames::put_eight(counted.replacements, at, out);
            std::num::wrapping_add_usize(at, counted.length)
        }
        Err(why) => put_refused(why, out),
    }
}

// Puts why there is no text: the number in four bytes, and in eight what it carries.
fn put_refused(why: Refusal, out: &mut [u8]) -> usize {
    let at = buffer::put_byte(REFUSED, 0, out);
    let at = test_frames::put_four(why.number(), at, out);
    test_frames::put_eight(why.carried(), at, out)
}

// Writes the text that a question asks for. A tag that is none of these is refused.
fn written(tag: u8, payload: &[u8], out: &mut [u8]) -> Result<Counted, Refusal> {
    match tag {
        48 => of_record(true, payload, out),
        49 => of_record(false, payload, out),
        50 | 51 => of_pair(tag, payload, out),
        52 => subtag::write_subtag(payload, out),
        _ => Err(Refusal::TooFewBytes),
    }
}

// Writes the text of the record that the bytes hold: the whole one, or what its locale says.
fn of_record(whole: bool, bytes: &[u8], out: &mut [u8]) -> Result<Counted, Refusal> {
    let parsed = reading::parse(bytes)?;
    of_taken(whole, parsed.record, out)
}

// Writes the text of a record.
fn of_taken(whole: bool, record: ResTableConfig, out: &mut [u8]) -> Result<Counted, Refusal> {
    if whole {
        text::as_string(record, out)
    } else {
        locale::write_locale(record, out)
    }
}

// Writes the words of the language or the region that two bytes hold.
fn of_pair(tag: u8, pair: &[u8], out: &mut [u8]) -> Result<Counted, Refusal> {
    if pair.len() < 2 {
        return Err(Refusal::TooFewBytes);
    }
    match tag {
        50 => language::write_language(pair[0], pair[1], out),
        _ => language::write_region(pair[0], pair[1], out),
    }
}
