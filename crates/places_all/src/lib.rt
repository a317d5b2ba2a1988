#![tactic(auto)]
// The last eleven places of a record, a few to a function, and all twenty-four. A word of the record that is 0 says none of its
// places, so that some are tested by their word first.
//
// `put_text` is machinery: it stops at the buffer's end and refuses nothing.
mod put;

ghost use Rattle.std.specs.Prelude.{take, drop};
ghost use Rattle.subtag.specs.Copies.{Copies};
ghost use Rattle.locale.specs.Subtags.{text_replacements};
ghost use Rattle.places.specs.Say.{Says};
ghost use Rattle.places.specs.Places.{places_of, text_of};

use kinds::{
    Density, Keyboard, KeysHidden, NavHidden, Navigation, Orientation, Touchscreen, UIMode,
    UIModeNight,
};
use places::kind_place;
use places_first::put_first;
use put::{pixel_place, version_place};
use record::ResTableConfig;
use subtag::Copied;

// Places 13 to 15: orientation, UI type and night.
fn places_from_13(r: ResTableConfig, at: usize, out: &mut [u8]) -> usize
    ensures { Says out.old at (take 3 (drop 13 (places_of r))) out.new result }
{
    let screen = r.get_orientation_touchscreen_density();
    let layout = r.get_screen_layout_ui_smallest_width();
    let a = kind_place(Orientation::from(screen.orientation), at, out);
    let b = kind_place(UIMode::from(layout.ui_mode), a, out);
    kind_place(UIModeNight::from(layout.ui_mode), b, out)
}

// Places 16 and 17: density and touch, of `screen_type`.
fn places_from_16(r: ResTableConfig, at: usize, out: &mut [u8]) -> usize
    ensures { Says out.old at (take 2 (drop 16 (places_of r))) out.new result }
{
    if r.screen_type == 0 {
        return at;
    }
    let screen = r.get_orientation_touchscreen_density();
    let a = kind_place(Density::from(screen.density), at, out);
    kind_place(Touchscreen::from(screen.touchscreen), a, out)
}

// Places 18 to 21: keys and navigation, of `generic_purpose_field`.
fn places_from_18(r: ResTableConfig, at: usize, out: &mut [u8]) -> usize
    ensures { Says out.old at (take 4 (drop 18 (places_of r))) out.new result }
{
    if r.generic_purpose_field == 0 {
        return at;
    }
    let input = r.get_keyboard_navigation_input_flags();
    let a = kind_place(KeysHidden::from(input.input_flags), at, out);
    let b = kind_place(Keyboard::from(input.keyboard), a, out);
    let c = kind_place(NavHidden::from(input.input_flags), b, out);
    kind_place(Navigation::from(input.navigation), c, out)
}

// Puts the text of a record at the front of out.
pub fn put_text(r: ResTableConfig, out: &mut [u8]) -> Copied
    ensures { Copies out.old 0 (text_of r) (text_replacements r) out.new result }
{
    let a = put_first(r, out);
    let b = places_from_13(r, a.at, out);
    let c = places_from_16(r, b, out);
    let d = places_from_18(r, c, out);
    let e = pixel_place(r, d, out);
    Copied {
        at: version_place(r, e, out),
        replacements: a.replacements,
    }
}
