#![tactic(auto)]
// Writing: the bytes of a record, to the front of a lent buffer.
ghost use Rattle.std.specs.Prelude.{◌≡◌, ◌++◌, ◌∷◌, [], ◌+◌, ◌<◌, ◌≤◌, drop, get_or, length, replicate, take};
ghost use Rattle.std.proofs.Math.Seq.{paste};
ghost use Rattle.buffer.specs.Written.{outcome};
ghost use Rattle.record.specs.Table.{bit, width_of};
ghost use Rattle.record.specs.Shape.{Shaped};
ghost use Rattle.writing.specs.Writing.{bytes4, bytes_of, bytes_written, span, tidy, write_of};

use answers::Refusal;
use marking::late_bytes;
use record::{ENDS, ResTableConfig, STARTS};

// Nothing to run: its contract shows that the arrays of every record have the lengths that the theorems on writing and
// reading back ask for.
pub(crate) fn shape(r: ResTableConfig)
    ensures { Shaped r }
{}

// Puts the first n bytes of x into out, from offset at on.
fn put_at(x: &[u8], n: usize, at: usize, out: &mut [u8])
    requires { (at + n ≤ length out.old) × (n ≤ length x.now) }
    ensures { out.new ≡ paste out.old at x.now n }
{
    out[at..at + n].copy_from_slice(&x[..n]);
}

// Makes the first t bytes zero.
fn clear(t: usize, out: &mut [u8])
    requires { t ≤ length out.old }
    ensures { out.new ≡ replicate t 0 ++ drop t out.old }
{
    out[..t].fill(0);
}

// The bytes of a word, and zeros.
fn word_bytes(x: u32) -> [u8; 8]
    ensures { result ≡ bytes4 x ++ (0 ∷ 0 ∷ 0 ∷ 0 ∷ []) }
{
    [
        (x % 256) as u8,
        (x / 256 % 256) as u8,
        (x / 65536 % 256) as u8,
        (x / 16777216) as u8,
        0,
        0,
        0,
        0,
    ]
}

// Four bytes, and zeros.
fn four(x: [u8; 4]) -> [u8; 8]
    ensures { result ≡ get_or x 0 0 ∷ get_or x 1 0 ∷ get_or x 2 0 ∷ get_or x 3 0 ∷ 0 ∷ 0 ∷ 0 ∷ 0 ∷ [] }
{
    [x[0], x[1], x[2], x[3], 0, 0, 0, 0]
}

// Three bytes, and zeros.
fn three(x: [u8; 3]) -> [u8; 8]
    ensures { result ≡ get_or x 0 0 ∷ get_or x 1 0 ∷ get_or x 2 0 ∷ 0 ∷ 0 ∷ 0 ∷ 0 ∷ 0 ∷ [] }
{
    [x[0], x[1], x[2], 0, 0, 0, 0, 0]
}

// One byte, and zeros.
fn one(x: u8) -> [u8; 8]
    ensures { result ≡ x ∷ 0 ∷ 0 ∷ 0 ∷ 0 ∷ 0 ∷ 0 ∷ 0 ∷ [] }
{
    [x, 0, 0, 0, 0, 0, 0, 0]
}

// The bytes of field f, and what fills them up to eight.
fn field_of(r: ResTableConfig, f: usize) -> [u8; 8]
    requires { f < 15 }
    ensures { take (width_of f) result ≡ bytes_of r f }
{
    match f {
        0 => word_bytes(r.size),
        1 => word_bytes(r.imsi),
        2 => word_bytes(r.locale),
        3 => word_bytes(r.screen_type),
        4 => word_bytes(r.generic_purpose_field),
        5 => word_bytes(r.screen_size),
        6 => word_bytes(r.version),
        7 => word_bytes(r.screen_config),
        8 => word_bytes(r.screen_size_dp),
        9 => {
            let x = r.locale_script;
            four(x)
        }
        10 => {
            let x = r.locale_variant;
            x
        }
        11 => word_bytes(r.screen_config_2),
        12 => one(r.locale_script_was_computed as u8),
        13 => {
            let x = r.locale_numbering_system;
            x
        }
        _ => {
            let x = r.end_padding;
            three(x)
        }
    }
}

// Whether every field that isn't read in t bytes is zero; in 64 bytes all are read.
fn is_tidy(r: ResTableConfig, t: usize) -> bool
    requires { t ≡ span r }
    ensures { result ≡ tidy r }
{
    if 64 <= t {
        return true;
    }
    for f in 0..15 {
        let end = ENDS[f];
        if t < end {
            let start = STARTS[f];
            let x = field_of(r, f);
            if late_bytes(&x, end - start, 0) {
                return false;
            }
        }
    }
    true
}

// Puts each field that is read in t bytes into t zeros.
fn lay(r: ResTableConfig, t: usize, out: &mut [u8])
    requires { (t ≡ span r) × ((t ≤ length out.old) × (take t out.old ≡ replicate t 0)) }
    ensures { out.new ≡ bytes_written r ++ drop t out.old }
{
    for f in 0..15 {
        let end = ENDS[f];
        if end <= t {
            let start = STARTS[f];
            let x = field_of(r, f);
            put_at(&x, end - start, start, out);
        }
    }
}

// Writes a record that takes t bytes.
fn write_long(r: ResTableConfig, t: usize, out: &mut [u8]) -> Result<usize, Refusal>
    requires { t ≡ span r }
    ensures { outcome result out.new ≡ write_of r out.old }
{
    if !is_tidy(r, t) {
        return Err(Refusal::UnreadField);
    }
    if out.len() < t {
        return Err(Refusal::ShortBuffer);
    }
    clear(t, out);
    lay(r, t, out);
    Ok(t)
}

// Writes the bytes of a record for its own size.
pub fn write(r: ResTableConfig, out: &mut [u8]) -> Result<usize, Refusal>
    ensures { outcome result out.new ≡ write_of r out.old }
{
    let size = r.size as usize;
    write_long(r, size.max(16), out)
}
