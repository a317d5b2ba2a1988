// One place that is no kind: the dash that stands before it, and its words, where it is said.
ghost use Rattle.std.specs.Prelude.{◌∷◌, []};
ghost use Rattle.buffer.specs.Put.{Put};
ghost use Rattle.places.specs.Say.{Says};
ghost use Rattle.places.specs.Places.{pixel_place, version_place, minor_words};

use buffer::{put_between, put_decimal, put_label};
use places::dash;
use record::ResTableConfig;

// Both sides in pixels.
pub(crate) fn pixel_place(r: ResTableConfig, at: usize, out: &mut [u8]) -> usize
    ensures { Says out.old at (pixel_place r ∷ []) out.new result }
{
    if r.screen_size == 0 {
        return at;
    }
    let sides = r.get_screen_width_height();
    let a = dash(at, out);
    let b = put_between(b"", sides.screen_width as u64, b"x", a, out);
    put_decimal(sides.screen_height as u64, b, out)
}

// A minor version behind a dot, unless it is 0.
fn put_minor(minor: u16, at: usize, out: &mut [u8]) -> usize
    ensures { Put out.old at (minor_words minor) out.new result }
{
    if minor == 0 {
        return at;
    }
    put_label(b".", minor as u64, at, out)
}

// The platform's version.
pub(crate) fn version_place(r: ResTableConfig, at: usize, out: &mut [u8]) -> usize
    ensures { Says out.old at (version_place r ∷ []) out.new result }
{
    if r.version == 0 {
        return at;
    }
    let version = r.get_sdk_minor_version();
    let a = dash(at, out);
    let b = put_label(b"v", version.sdk_version as u64, a, out);
    put_minor(version.minor_version, b, out)
}
