// The fields of a record, each read where it ends within a limit that the caller keeps inside the bytes, and zero past it.
ghost use Rattle.std.specs.Prelude.{◌≡◌, not, ◌+◌, ◌<◌, ◌≤◌, leb, length};
ghost use Rattle.record.specs.Table.{all_zero, end_of, le, part, start_of};
ghost use Rattle.reading.specs.Reading.{field_by, record_by};

use record::{ENDS, ResTableConfig, STARTS};

// A byte as a word.
fn wide(x: u8) -> u32
    ensures { (result ≡ x) × (result < 256) }
{
    x as u32
}

// The little-endian word at an offset.
pub(crate) fn word(bytes: &[u8], at: usize) -> u32
    requires { at + 4 ≤ length bytes.now }
    ensures { result ≡ le (part bytes.now at 4) }
{
    wide(bytes[at])
        + 256 * wide(bytes[at + 1])
        + 65536 * wide(bytes[at + 2])
        + 16777216 * wide(bytes[at + 3])
}

// Field f, a word.
fn word_field(bytes: &[u8], limit: usize, f: usize) -> u32
    requires { (limit ≤ length bytes.now) × ((f < 15) × (end_of f ≡ start_of f + 4)) }
    ensures { result ≡ le (field_by (λ g. leb (end_of g) limit) bytes.now f) }
{
    if ENDS[f] <= limit {
        let at = STARTS[f];
        word(bytes, at)
    } else {
        0
    }
}

// Field f, three bytes.
fn three_field(bytes: &[u8], limit: usize, f: usize) -> [u8; 3]
    requires { (limit ≤ length bytes.now) × ((f < 15) × (end_of f ≡ start_of f + 3)) }
    ensures { result ≡ field_by (λ g. leb (end_of g) limit) bytes.now f }
{
    if ENDS[f] <= limit {
        let at = STARTS[f];
        [bytes[at], bytes[at + 1], bytes[at + 2]]
    } else {
        [0; 3]
    }
}

// Field f, four bytes.
fn four_field(bytes: &[u8], limit: usize, f: usize) -> [u8; 4]
    requires { (limit ≤ length bytes.now) × ((f < 15) × (end_of f ≡ start_of f + 4)) }
    ensures { result ≡ field_by (λ g. leb (end_of g) limit) bytes.now f }
{
    if ENDS[f] <= limit {
        let at = STARTS[f];
        [bytes[at], bytes[at + 1], bytes[at + 2], bytes[at + 3]]
    } else {
        [0; 4]
    }
}

// Field f, eight bytes.
fn eight_field(bytes: &[u8], limit: usize, f: usize) -> [u8; 8]
    requires { (limit ≤ length bytes.now) × ((f < 15) × (end_of f ≡ start_of f + 8)) }
    ensures { result ≡ field_by (λ g. leb (end_of g) limit) bytes.now f }
{
    if ENDS[f] <= limit {
        let at = STARTS[f];
        [
            bytes[at],
            bytes[at + 1],
            bytes[at + 2],
            bytes[at + 3],
            bytes[at + 4],
            bytes[at + 5],
            bytes[at + 6],
            bytes[at + 7],
        ]
    } else {
        [0; 8]
    }
}

// Field f, one byte: yes when it is not 0.
fn yes_field(bytes: &[u8], limit: usize, f: usize) -> bool
    requires { (limit ≤ length bytes.now) × ((f < 15) × (end_of f ≡ start_of f + 1)) }
    ensures { result ≡ not (all_zero (field_by (λ g. leb (end_of g) limit) bytes.now f)) }
{
    if ENDS[f] <= limit {
        let at = STARTS[f];
        bytes[at] != 0
    } else {
        false
    }
}

// The record of the fields that end within the limit. Inline, as a call would copy the record that it gives.
#[inline(always)]
pub(crate) fn record_to(bytes: &[u8], limit: usize) -> ResTableConfig
    requires { limit ≤ length bytes.now }
    ensures { result ≡ record_by (λ g. leb (end_of g) limit) bytes.now }
{
    let locale_script = four_field(bytes, limit, 9);
    let locale_variant = eight_field(bytes, limit, 10);
    let locale_numbering_system = eight_field(bytes, limit, 13);
    let end_padding = three_field(bytes, limit, 14);
    ResTableConfig {
        size: word_field(bytes, limit, 0),
        imsi: word_field(bytes, limit, 1),
        locale: word_field(bytes, limit, 2),
        screen_type: word_field(bytes, limit, 3),
        generic_purpose_field: word_field(bytes, limit, 4),
        screen_size: word_field(bytes, limit, 5),
        version: word_field(bytes, limit, 6),
        screen_config: word_field(bytes, limit, 7),
        screen_size_dp: word_field(bytes, limit, 8),
        locale_script,
        locale_variant,
        screen_config_2: word_field(bytes, limit, 11),
        locale_script_was_computed: yes_field(bytes, limit, 12),
        locale_numbering_system,
        end_padding,
    }
}
