#![tactic(auto)]
// The words of a record's locale, in the legacy and in the new format.
ghost use Rattle.std.specs.Prelude.{false, ◌++◌, ◌≡◌, ◌%◌, ◌/◌, ◌≤◌, length};
ghost use Rattle.buffer.specs.Ascii.{ascii};
ghost use Rattle.buffer.specs.Counted.{counted_outcome, counting};
ghost use Rattle.buffer.specs.Written.{written};
ghost use Rattle.subtag.specs.Copies.{Copies};
ghost use Rattle.subtag.specs.Replacements.{replacements, replacements_in};
ghost use Rattle.subtag.specs.Subtag.{subtag_of};
ghost use Rattle.locale.specs.Locale.{language, region, begins, has_region, script_provided, is_new, behind, legacy_words, new_words, locale_words, locale_text};
ghost use Rattle.locale.specs.Tag.{tag_words, tag_replacements};
ghost use Rattle.locale.specs.Subtags.{language_in, region_in, locale_replacements, text_replacements, where_there};

use answers::{Counted, Refusal};
use buffer::put;
use language::{language_length, put_language, put_region, region_length};
use record::ResTableConfig;
use subtag::{Copied, put_subtag, subtag_reach};

// The record's language, put.
fn put_own_language(r: ResTableConfig, at: usize, out: &mut [u8]) -> Copied
    ensures { Copies out.old at (language r) (replacements (language_in r)) out.new result }
{
    let locale = r.locale;
    put_language((locale % 256) as u8, (locale / 256 % 256) as u8, at, out)
}

// The record's region behind its sign, where there is one.
fn put_own_region(sign: &[u8], r: ResTableConfig, at: usize, out: &mut [u8]) -> Copied
    ensures { Copies out.old at (behind (has_region r) sign.now (region r)) (replacements_in (where_there (has_region r) (region_in r))) out.new result }
{
    let locale = r.locale;
    if locale / 65536 % 256 == 0 {
        return Copied {
            at,
            replacements: 0,
        };
    }
    let a = put(sign, at, out);
    put_region(
        (locale / 65536 % 256) as u8,
        (locale / 16777216) as u8,
        a,
        out,
    )
}

// Whether a script was provided.
fn script_provided(r: ResTableConfig) -> bool
    ensures { result ≡ script_provided r }
{
    let script = r.locale_script;
    if script[0] == 0 {
        return false;
    }
    !r.locale_script_was_computed
}

// Whether eight bytes begin with one that isn't 0.
fn eight_begin(src: [u8; 8]) -> bool
    ensures { result ≡ begins src }
{
    src[0] != 0
}

// Puts the legacy format.
fn put_legacy(r: ResTableConfig, at: usize, out: &mut [u8]) -> Copied
    requires { is_new r ≡ false }
    ensures { Copies out.old at (legacy_words r) (locale_replacements r) out.new result }
{
    let language = put_own_language(r, at, out);
    let region = put_own_region(b"-r", r, language.at, out);
    Copied {
        at: region.at,
        replacements: language.replacements + region.replacements,
    }
}

// The record's script behind a plus, where it was provided.
fn put_script(r: ResTableConfig, at: usize, out: &mut [u8]) -> Copied
    ensures { Copies out.old at (behind (script_provided r) (ascii "+") (subtag_of r.locale_script)) (replacements_in (where_there (script_provided r) r.locale_script)) out.new result }
{
    if script_provided(r) {
        let script = r.locale_script;
        let a = put(b"+", at, out);
        return put_subtag(&script, a, out);
    }
    Copied {
        at,
        replacements: 0,
    }
}

// The record's variant behind a plus, where it begins with a byte that isn't 0.
fn put_variant(r: ResTableConfig, at: usize, out: &mut [u8]) -> Copied
    ensures { Copies out.old at (behind (begins r.locale_variant) (ascii "+") (subtag_of r.locale_variant)) (replacements_in (where_there (begins r.locale_variant) r.locale_variant)) out.new result }
{
    let variant = r.locale_variant;
    if eight_begin(variant) {
        let a = put(b"+", at, out);
        return put_subtag(&variant, a, out);
    }
    Copied {
        at,
        replacements: 0,
    }
}

// The record's numbering system behind its sign, where it begins with a byte that isn't 0.
fn put_numbering(r: ResTableConfig, at: usize, out: &mut [u8]) -> Copied
    ensures { Copies out.old at (behind (begins r.locale_numbering_system) (ascii "+u+nu+") (subtag_of r.locale_numbering_system)) (replacements_in (where_there (begins r.locale_numbering_system) r.locale_numbering_system)) out.new result }
{
    let numbering = r.locale_numbering_system;
    if eight_begin(numbering) {
        let a = put(b"+u+nu+", at, out);
        return put_subtag(&numbering, a, out);
    }
    Copied {
        at,
        replacements: 0,
    }
}

// Puts the new format as far as the region: its sign, language, script and region.
fn put_tag(r: ResTableConfig, at: usize, out: &mut [u8]) -> Copied
    ensures { Copies out.old at (tag_words r) (tag_replacements r) out.new result }
{
    let begun = put(b"b+", at, out);
    let language = put_own_language(r, begun, out);
    let script = put_script(r, language.at, out);
    let region = put_own_region(b"+", r, script.at, out);
    Copied {
        at: region.at,
        replacements: language.replacements + script.replacements + region.replacements,
    }
}

// Puts the new format.
fn put_new(r: ResTableConfig, at: usize, out: &mut [u8]) -> Copied
    ensures { Copies out.old at (new_words r) (locale_replacements r) out.new result }
{
    let tag = put_tag(r, at, out);
    let longer = put_variant(r, tag.at, out);
    let longest = put_numbering(r, longer.at, out);
    Copied {
        at: longest.at,
        replacements: tag.replacements + longer.replacements + longest.replacements,
    }
}

// Whether the new format is called for.
fn is_new(r: ResTableConfig) -> bool
    ensures { result ≡ is_new r }
{
    if script_provided(r) {
        return true;
    }
    let variant = r.locale_variant;
    if eight_begin(variant) {
        return true;
    }
    let numbering = r.locale_numbering_system;
    eight_begin(numbering)
}

// Puts the words of a record's locale, whether or not they are said.
pub fn put_locale(r: ResTableConfig, at: usize, out: &mut [u8]) -> Copied
    ensures { Copies out.old at (locale_words r) (locale_replacements r) out.new result }
{
    if is_new(r) {
        put_new(r, at, out)
    } else {
        put_legacy(r, at, out)
    }
}

// How many bytes the record's language has.
fn own_language_length(r: ResTableConfig) -> usize
    ensures { (result ≡ length (language r)) × (result ≤ 9) }
{
    let locale = r.locale;
    language_length((locale % 256) as u8, (locale / 256 % 256) as u8)
}

// How many bytes the record's region has behind its sign, where there is one.
fn own_region_length(sign: &[u8], r: ResTableConfig) -> usize
    requires { length sign.now ≤ 6 }
    ensures { (result ≡ length (behind (has_region r) sign.now (region r))) × (result ≤ 10) }
{
    let locale = r.locale;
    if locale / 65536 % 256 == 0 {
        return 0;
    }
    sign.len() + region_length((locale / 65536 % 256) as u8, (locale / 16777216) as u8)
}

// How many bytes a subtag has behind its sign, where it is there.
fn behind_length(there: bool, sign: &[u8], src: &[u8]) -> usize
    requires { (length sign.now ≤ 6) × (length src.now ≤ 8) }
    ensures { (result ≡ length (behind there sign.now (subtag_of src.now))) × (result ≤ 30) }
{
    if there {
        sign.len() + subtag_reach(src, 24)
    } else {
        0
    }
}

// How many bytes eight bytes have behind a sign, where they begin with one that isn't 0.
fn begun_length(sign: &[u8], src: [u8; 8]) -> usize
    requires { length sign.now ≤ 6 }
    ensures { (result ≡ length (behind (begins src) sign.now (subtag_of src))) × (result ≤ 30) }
{
    behind_length(eight_begin(src), sign, &src)
}

// How many bytes the record's script has behind a plus, where it was provided.
fn script_length(r: ResTableConfig) -> usize
    ensures { (result ≡ length (behind (script_provided r) (ascii "+") (subtag_of r.locale_script))) × (result ≤ 30) }
{
    let script = r.locale_script;
    let there = script_provided(r);
    behind_length(there, b"+", &script)
}

// How many bytes the new format has.
fn new_length(r: ResTableConfig) -> usize
    ensures { result ≡ length (new_words r) }
{
    let variant = r.locale_variant;
    let numbering = r.locale_numbering_system;
    let language = own_language_length(r);
    let script = script_length(r);
    let region = own_region_length(b"+", r);
    let longer = begun_length(b"+", variant);
    2 + language + script + region + longer + begun_length(b"+u+nu+", numbering)
}

// How many bytes the words of a record's locale have, whether or not they are said.
pub fn locale_length(r: ResTableConfig) -> usize
    ensures value { result ≡ length (locale_words r) }
    ensures upper_bound { result ≤ 84 }
{
    if is_new(r) {
        return new_length(r);
    }
    own_language_length(r) + own_region_length(b"-r", r)
}

// Puts the words of a record's locale where they are said.
fn put_said(r: ResTableConfig, at: usize, out: &mut [u8]) -> Copied
    ensures { Copies out.old at (locale_text r) (text_replacements r) out.new result }
{
    if r.locale % 256 == 0 {
        Copied {
            at,
            replacements: 0,
        }
    } else {
        put_locale(r, at, out)
    }
}

// How many bytes those words have where they are said.
fn said_length(r: ResTableConfig) -> usize
    ensures { result ≡ length (locale_text r) }
{
    if r.locale % 256 == 0 {
        0
    } else {
        locale_length(r)
    }
}

// Writes what a record's locale says, as 000 appends it to an empty text; where out is shorter, it is left as it is.
pub fn write_locale(r: ResTableConfig, out: &mut [u8]) -> Result<Counted, Refusal>
    ensures { counted_outcome result out.new ≡ counting (text_replacements r) (written (locale_text r) out.old) }
{
    if out.len() < said_length(r) {
        return Err(Refusal::ShortBuffer);
    }
    Ok(put_said(r, 0, out).into())
}

// How many replacements the text of a record has. They are counted with no room to write, so nothing is written.
pub fn replacements_in(r: ResTableConfig) -> usize
    ensures { result ≡ text_replacements r }
{
    let mut none = [0u8; 0];
    let counted = put_said(r, 0, &mut none);
    counted.replacements
}
