#![tactic(auto)]
// A record's key: sixty bytes that are compared byte by byte as 01 compares records. Whoever keeps many records in order keeps their
// keys, and needn't read the records again.
ghost use Rattle.std.specs.Prelude.{◌++◌, ◌≡◌};
ghost use Rattle.buffer.specs.Put.{Put};
ghost use Rattle.record.specs.Table.{bit};
ghost use Rattle.keys.specs.Keys.{big4, key_of, later_bytes, Sound};

use buffer::{put, put_byte};
use record::ResTableConfig;

// Nothing to run: its contract shows that every record is what the theorems on keys ask for.
pub fn sound(r: ResTableConfig)
    ensures { Sound r }
{}

// Puts a word, big-endian.
fn put_word(x: u32, at: usize, out: &mut [u8]) -> usize
    ensures { Put out.old at (big4 x) out.new result }
{
    let a = put_byte((x / 16777216) as u8, at, out);
    let b = put_byte((x / 65536 % 256) as u8, a, out);
    let c = put_byte((x / 256 % 256) as u8, b, out);
    put_byte((x % 256) as u8, c, out)
}

// Puts four words.
fn put_words(x: u32, y: u32, z: u32, w: u32, at: usize, out: &mut [u8]) -> usize
    ensures { Put out.old at (big4 x ++ (big4 y ++ (big4 z ++ big4 w))) out.new result }
{
    let a = put_word(x, at, out);
    let b = put_word(y, a, out);
    let c = put_word(z, b, out);
    put_word(w, c, out)
}

// Puts three bytes.
fn put_three(x: [u8; 3], at: usize, out: &mut [u8]) -> usize
    ensures { Put out.old at x out.new result }
{
    put(&x, at, out)
}

// Puts four bytes.
fn put_four(x: [u8; 4], at: usize, out: &mut [u8]) -> usize
    ensures { Put out.old at x out.new result }
{
    put(&x, at, out)
}

// Puts eight bytes.
fn put_eight(x: [u8; 8], at: usize, out: &mut [u8]) -> usize
    ensures { Put out.old at x out.new result }
{
    put(&x, at, out)
}

// A yes as 1.
fn bit_of(yes: bool) -> u8
    ensures { result ≡ bit yes }
{
    yes as u8
}

// Puts the fields from `locale_script` on.
fn put_later(r: ResTableConfig, at: usize, out: &mut [u8]) -> usize
    ensures { Put out.old at (later_bytes r) out.new result }
{
    let script = r.locale_script;
    let a = put_four(script, at, out);
    let variant = r.locale_variant;
    let b = put_eight(variant, a, out);
    let c = put_word(r.screen_config_2, b, out);
    let d = put_byte(bit_of(r.locale_script_was_computed), c, out);
    let numbering = r.locale_numbering_system;
    let e = put_eight(numbering, d, out);
    let padding = r.end_padding;
    put_three(padding, e, out)
}

// Puts the key of a record. It refuses nothing.
pub fn put_key(r: ResTableConfig, at: usize, out: &mut [u8]) -> usize
    ensures { Put out.old at (key_of r) out.new result }
{
    let a = put_words(
        r.imsi,
        r.locale,
        r.screen_type,
        r.generic_purpose_field,
        at,
        out,
    );
    let b = put_words(
        r.screen_size,
        r.version,
        r.screen_config,
        r.screen_size_dp,
        a,
        out,
    );
    put_later(r, b, out)
}
