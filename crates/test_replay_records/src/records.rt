// What the port answers to each kind of question on records, by its tag. The table of tests/rust has the same tags.
use crate::offsets;
use answers::{Refusal, Told};
use kinds::Density;
use reading::Parsed;
use record::{Age, ResTableConfig};

// What the answer begins with where there is no whole record, and no call is told of.
const REFUSED: u8 = 255;

// Answers a question at the front of `out`, and gives the answer's length. A tag that is none of these has no answer.
pub(crate) fn answer(tag: u8, payload: &[u8], out: &mut [u8]) -> usize {
    match tag {
        32 => parse(payload, out),
        33 => accessors(payload, out),
        34 => set_density(payload, out),
        35 => compare(payload, out),
        36 => written_back(payload, out),
        43 => take(payload, out),
        44 => parse_aged(payload, out),
        _ => offsets::answer(tag, payload, out),
    }
}

// Puts what a call tells at the front: the number in four bytes, the amount in eight, and in eight what a refusal carries.
pub(crate) fn put_told(told: Told, out: &mut [u8]) -> usize {
    let at = test_frames::put_four(told.number, 0, out);
    let at = test_frames::put_eight(told.amount, at, out);
    test_frames::put_eight(told.carried, at, out)
}

// Answers that there is no whole record: why, and in eight bytes what that carries.
fn refused(why: Refusal, out: &mut [u8]) -> usize {
    let at = buffer::put_byte(REFUSED, 0, out);
    let at = test_frames::put_four(why.number(), at, out);
    test_frames::put_eight(why.carried(), at, out)
}

// How many bytes the record takes.
fn take(bytes: &[u8], out: &mut [u8]) -> usize {
    put_told(Told::from(reading::take(bytes)), out)
}

// What parsing tells, and the fields of the record that it gives.
fn parse(bytes: &[u8], out: &mut [u8]) -> usize {
    put_parsed(reading::parse(bytes), out)
}

// The same for a reader of the age that stands in four bytes in front of the record.
fn parse_aged(payload: &[u8], out: &mut [u8]) -> usize {
    if payload.len() < 4 {
        return 0;
    }
    let age = Age((test_frames::four(payload) % 4294967296) as u32);
    put_parsed(reading::parse_aged(&payload[4..], age), out)
}

// Puts what a parse tells, and the fields; a refused parse gives a record that holds nothing.
fn put_parsed(answer: Result<Parsed, Refusal>, out: &mut [u8]) -> usize {
    match answer {
        Ok(parsed) => {
            let at = put_told(Told::success(parsed.taken), out);
            put_fields(parsed.record, at, out)
        }
        Err(why) => {
            let at = put_told(why.told(), out);
            put_fields(record::blank(), at, out)
        }
    }
}

// The bytes that the writer gives for the record that parsing gives.
fn written_back(bytes: &[u8], out: &mut [u8]) -> usize {
    match reading::parse(bytes) {
        Ok(parsed) => put_written(parsed.record, out),
        Err(why) => refused(why, out),
    }
}

// What the writer writes; a refusal, which no question should meet, leaves no answer.
fn put_written(record: ResTableConfig, out: &mut [u8]) -> usize {
    match writing::write(record, out) {
        Ok(n) => n,
        Err(_) => 0,
    }
}

// Every accessor's numbers.
fn accessors(bytes: &[u8], out: &mut [u8]) -> usize {
    match reading::parse(bytes) {
        Ok(parsed) => put_accessed(parsed.record, out),
        Err(why) => refused(why, out),
    }
}

// The fields after the density at the payload's front is set.
fn set_density(payload: &[u8], out: &mut [u8]) -> usize {
    if payload.len() < 2 {
        return 0;
    }
    let density = Density::from(test_frames::two(payload));
    match reading::parse(&payload[2..]) {
        Ok(parsed) => put_fields(parsed.record.set_density(density), 0, out),
        Err(why) => refused(why, out),
    }
}

// Whether two records are equal, and their order both ways. The first one's length stands in front of them.
fn compare(payload: &[u8], out: &mut [u8]) -> usize {
    if payload.len() < 4 {
        return 0;
    }
    let records = &payload[4..];
    let n = test_frames::front(test_frames::four(payload), records);
    compare_parts(&records[..n], &records[n..], out)
}

// The answer on a pair, each in its own bytes. The first one's refusal comes before the second's.
fn compare_parts(first: &[u8], second: &[u8], out: &mut [u8]) -> usize {
    match reading::parse(first) {
        Err(why) => refused(why, out),
        Ok(a) => match reading::parse(second) {
            Err(why) => refused(why, out),
            Ok(b) => compare_records(a.record, b.record, out),
        },
    }
}

// The answer on two records.
fn compare_records(a: ResTableConfig, b: ResTableConfig, out: &mut [u8]) -> usize {
    let at = buffer::put_byte(u8::from(order::eq(a, b)), 0, out);
    let at = buffer::put_byte(order::cmp(a, b).number() as u8, at, out);
    buffer::put_byte(order::cmp(b, a).number() as u8, at, out)
}

// Puts the fifteen fields in their order.
pub(crate) fn put_fields(r: ResTableConfig, at: usize, out: &mut [u8]) -> usize {
    let at = put_first(r, at, out);
    let at = put_words(r, at, out);
    let at = put_locale(r, at, out);
    put_last(r, at, out)
}

// Puts the four fields that are always read.
fn put_first(r: ResTableConfig, at: usize, out: &mut [u8]) -> usize {
    let at = test_frames::put_four(r.size, at, out);
    let at = test_frames::put_four(r.imsi, at, out);
    let at = test_frames::put_four(r.locale, at, out);
    test_frames::put_four(r.screen_type, at, out)
}

// Puts the five words behind those.
fn put_words(r: ResTableConfig, at: usize, out: &mut [u8]) -> usize {
    let at = test_frames::put_four(r.generic_purpose_field, at, out);
    let at = test_frames::put_four(r.screen_size, at, out);
    let at = test_frames::put_four(r.version, at, out);
    let at = test_frames::put_four(r.screen_config, at, out);
    test_frames::put_four(r.screen_size_dp, at, out)
}

// Puts script and variant.
fn put_locale(r: ResTableConfig, at: usize, out: &mut [u8]) -> usize {
    let at = buffer::put(&r.locale_script, at, out);
    buffer::put(&r.locale_variant, at, out)
}

// Puts the last four fields.
fn put_last(r: ResTableConfig, at: usize, out: &mut [u8]) -> usize {
    let at = test_frames::put_four(r.screen_config_2, at, out);
    let at = buffer::put_byte(u8::from(r.locale_script_was_computed), at, out);
    let at = buffer::put(&r.locale_numbering_system, at, out);
    buffer::put(&r.end_padding, at, out)
}

// Puts what every accessor gives, in 000's order.
fn put_accessed(r: ResTableConfig, out: &mut [u8]) -> usize {
    let codes = r.get_mcc_mnc();
    let at = put_halves(codes.mcc, codes.mnc, 0, out);
    let screen = r.get_orientation_touchscreen_density();
    let at = put_parts(
        screen.orientation,
        screen.touchscreen,
        screen.density,
        at,
        out,
    );
    let at = put_input(r, at, out);
    let size = r.get_screen_width_height();
    let at = put_halves(size.screen_width, size.screen_height, at, out);
    let version = r.get_sdk_minor_version();
    let at = put_halves(version.sdk_version, version.minor_version, at, out);
    put_screen(r, at, out)
}

// Puts what the accessors on `generic_purpose_field` give.
fn put_input(r: ResTableConfig, at: usize, out: &mut [u8]) -> usize {
    let keys = r.get_keyboard_navigation_input_flags();
    let at = buffer::put_byte(keys.keyboard, at, out);
    let at = buffer::put_byte(keys.navigation, at, out);
    let at = buffer::put_byte(keys.input_flags, at, out);
    let at = test_frames::put_four(r.get_input(), at, out);
    buffer::put_byte(r.get_grammatical_inflection(), at, out)
}

// Puts what the last three accessors give.
fn put_screen(r: ResTableConfig, at: usize, out: &mut [u8]) -> usize {
    let layout = r.get_screen_layout_ui_smallest_width();
    let at = put_parts(
        layout.screen_layout,
        layout.ui_mode,
        layout.smallest_screen_width_dp,
        at,
        out,
    );
    let dp = r.get_screen_width_height_dp();
    let at = put_halves(dp.screen_width_dp, dp.screen_height_dp, at, out);
    let second = r.get_screen_layout_2_color_mode();
    let at = buffer::put_byte(second.screen_layout_2, at, out);
    buffer::put_byte(second.color_mode, at, out)
}

// Puts the two halves of a word.
fn put_halves(low: u16, high: u16, at: usize, out: &mut [u8]) -> usize {
    let at = test_frames::put_two(low, at, out);
    test_frames::put_two(high, at, out)
}

// Puts the two lower bytes of a word, and its upper half.
fn put_parts(first: u8, second: u8, high: u16, at: usize, out: &mut [u8]) -> usize {
    let at = buffer::put_byte(first, at, out);
    let at = buffer::put_byte(second, at, out);
    test_frames::put_two(high, at, out)
}
