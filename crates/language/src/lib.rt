#![tactic(auto)]
// Language and region, each of two bytes: unpacked, and put or written as a subtag.
ghost use Rattle.std.specs.Prelude.{◌∷◌, [], ◌≡◌, ◌≤◌, length};
ghost use Rattle.buffer.specs.Counted.{counted_outcome, counting};
ghost use Rattle.buffer.specs.Written.{written};
ghost use Rattle.subtag.specs.Copies.{Copies};
ghost use Rattle.subtag.specs.Replacements.{replacements};
ghost use Rattle.subtag.specs.Subtag.{subtag_of};
ghost use Rattle.language.specs.Language.{unpacked, language_bytes, language_of, region_bytes, region_of};

use answers::{Counted, Refusal};
use buffer::{put, put_byte};
use subtag::Copied;

// Puts a byte that is a subtag by itself: a NUL is dropped, and one from 0x80 on is replaced.
fn put_letter(b: u8, at: usize, out: &mut [u8]) -> Copied
    ensures { Copies out.old at (subtag_of (b ∷ [])) (replacements (b ∷ [])) out.new result }
{
    if b == 0 {
        return Copied {
            at,
            replacements: 0,
        };
    }
    if b < 0x80 {
        return Copied {
            at: put_byte(b, at, out),
            replacements: 0,
        };
    }
    Copied {
        at: put(b"\xef\xbf\xbd", at, out),
        replacements: 1,
    }
}

// Puts the subtag of two bytes, letter by letter as they are unpacked: three packed letters count from base, which is at most 'a'. So no
// letter is above 0x80, and each is a subtag by itself.
fn put_unpacked(a: u8, b: u8, base: u8, at: usize, out: &mut [u8]) -> Copied
    requires { (1 ≤ base) × (base ≤ 97) }
    ensures { Copies out.old at (subtag_of (unpacked base a b)) (replacements (unpacked base a b)) out.new result }
{
    if a == 0 {
        return Copied {
            at,
            replacements: 0,
        };
    }
    if a < 128 {
        let second = put_byte(a, at, out);
        return put_letter(b, second, out);
    }
    let first = put_letter(b % 32 + base, at, out);
    let second = put_letter(b / 32 + a % 4 * 8 + base, first.at, out);
    let third = put_letter(a / 4 % 32 + base, second.at, out);
    Copied {
        at: third.at,
        replacements: first.replacements + second.replacements + third.replacements,
    }
}

// How many bytes a byte has that is a subtag by itself.
fn letter_length(b: u8) -> usize
    ensures { (result ≡ length (subtag_of (b ∷ []))) × (result ≤ 3) }
{
    if b == 0 {
        return 0;
    }
    if b < 0x80 { 1 } else { 3 }
}

// How many bytes the subtag of two bytes has, letter by letter.
fn unpacked_length(a: u8, b: u8, base: u8) -> usize
    requires { (1 ≤ base) × (base ≤ 97) }
    ensures { result ≡ length (subtag_of (unpacked base a b)) }
{
    if a == 0 {
        return 0;
    }
    if a < 128 {
        return 1 + letter_length(b);
    }
    letter_length(b % 32 + base)
        + letter_length(b / 32 + a % 4 * 8 + base)
        + letter_length(a / 4 % 32 + base)
}

// Writes the subtag of two bytes; where out is shorter, it is left as it is.
fn write_unpacked(a: u8, b: u8, base: u8, out: &mut [u8]) -> Result<Counted, Refusal>
    requires { (1 ≤ base) × (base ≤ 97) }
    ensures { counted_outcome result out.new ≡ counting (replacements (unpacked base a b)) (written (subtag_of (unpacked base a b)) out.old) }
{
    if out.len() < unpacked_length(a, b, base) {
        return Err(Refusal::ShortBuffer);
    }
    let counted = Counted::from(put_unpacked(a, b, base, 0, out));
    Ok(counted)
}

// Puts a language of two bytes. Machinery, as all that is called `put`: it refuses nothing.
pub fn put_language(a: u8, b: u8, at: usize, out: &mut [u8]) -> Copied
    ensures { Copies out.old at (language_of a b) (replacements (language_bytes a b)) out.new result }
{
    put_unpacked(a, b, b'a', at, out)
}

// Puts a region of two bytes.
pub fn put_region(a: u8, b: u8, at: usize, out: &mut [u8]) -> Copied
    ensures { Copies out.old at (region_of a b) (replacements (region_bytes a b)) out.new result }
{
    put_unpacked(a, b, b'0', at, out)
}

// How many bytes a language of two bytes has.
pub fn language_length(a: u8, b: u8) -> usize
    ensures { result ≡ length (language_of a b) }
{
    unpacked_length(a, b, b'a')
}

// How many bytes a region of two bytes has.
pub fn region_length(a: u8, b: u8) -> usize
    ensures { result ≡ length (region_of a b) }
{
    unpacked_length(a, b, b'0')
}

// Writes a language of two bytes; where out is shorter, it is left as it is.
pub fn write_language(a: u8, b: u8, out: &mut [u8]) -> Result<Counted, Refusal>
    ensures { counted_outcome result out.new ≡ counting (replacements (language_bytes a b)) (written (language_of a b) out.old) }
{
    write_unpacked(a, b, b'a', out)
}

// Writes a region of two bytes; where out is shorter, it is left as it is.
pub fn write_region(a: u8, b: u8, out: &mut [u8]) -> Result<Counted, Refusal>
    ensures { counted_outcome result out.new ≡ counting (replacements (region_bytes a b)) (written (region_of a b) out.old) }
{
    write_unpacked(a, b, b'0', out)
}
