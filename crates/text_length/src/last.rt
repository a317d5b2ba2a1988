// What the UI mode and the places behind it add.
ghost use Rattle.std.specs.Prelude.{suc, ◌≤◌, ◌≡◌, length, take, drop};
ghost use Rattle.buffer.specs.Ascii.{ascii};
ghost use Rattle.places.specs.Say.{say_all};
ghost use Rattle.places.specs.Places.{places_of};

use crate::cost::{digits, kind_cost, number_cost};
use kinds::{
    Density, Keyboard, KeysHidden, NavHidden, Navigation, Touchscreen, UIMode, UIModeNight,
};
use record::ResTableConfig;

// Place 14: the UI mode, of `screen_config`.
pub(crate) fn mode_cost(r: ResTableConfig) -> usize
    ensures result_value { suc result ≡ length (say_all (ascii "-") (take 1 (drop 14 (places_of r)))) }
    ensures upper_bound { result ≤ 26 }
{
    if r.screen_config == 0 {
        return 0;
    }
    let layout = r.get_screen_layout_ui_smallest_width();
    let mode = UIMode::from(layout.ui_mode);
    kind_cost(mode)
}

// Place 15: night, of `screen_config`.
fn night_cost(r: ResTableConfig) -> usize
    ensures result_value { suc result ≡ length (say_all (ascii "-") (take 1 (drop 15 (places_of r)))) }
    ensures upper_bound { result ≤ 26 }
{
    if r.screen_config == 0 {
        return 0;
    }
    let layout = r.get_screen_layout_ui_smallest_width();
    let night = UIModeNight::from(layout.ui_mode);
    kind_cost(night)
}

// Places 16 and 17: density and touch, of `screen_type`.
fn screen_cost(r: ResTableConfig) -> usize
    ensures result_value { suc result ≡ length (say_all (ascii "-") (take 2 (drop 16 (places_of r)))) }
    ensures upper_bound { result ≤ 52 }
{
    if r.screen_type == 0 {
        return 0;
    }
    let screen = r.get_orientation_touchscreen_density();
    let density = Density::from(screen.density);
    let touchscreen = Touchscreen::from(screen.touchscreen);
    kind_cost(density) + kind_cost(touchscreen)
}

// Places 18 to 21: keys and navigation, of `generic_purpose_field`.
fn keys_cost(r: ResTableConfig) -> usize
    ensures result_value { suc result ≡ length (say_all (ascii "-") (take 4 (drop 18 (places_of r)))) }
    ensures upper_bound { result ≤ 104 }
{
    if r.generic_purpose_field == 0 {
        return 0;
    }
    let input = r.get_keyboard_navigation_input_flags();
    let keys_hidden = KeysHidden::from(input.input_flags);
    let keyboard = Keyboard::from(input.keyboard);
    let nav_hidden = NavHidden::from(input.input_flags);
    let navigation = Navigation::from(input.navigation);
    kind_cost(keys_hidden) + kind_cost(keyboard) + kind_cost(nav_hidden) + kind_cost(navigation)
}

// Place 22: both sides in pixels, behind a dash and around an x.
fn pixel_cost(r: ResTableConfig) -> usize
    ensures result_value { suc result ≡ length (say_all (ascii "-") (take 1 (drop 22 (places_of r)))) }
    ensures upper_bound { result ≤ 12 }
{
    if r.screen_size == 0 {
        return 0;
    }
    let sides = r.get_screen_width_height();
    2 + digits(sides.screen_width) + digits(sides.screen_height)
}

// Place 23: the platform's version behind a dash and a v, and its minor one behind a dot.
fn version_cost(r: ResTableConfig) -> usize
    ensures result_value { suc result ≡ length (say_all (ascii "-") (drop 23 (places_of r))) }
    ensures upper_bound { result ≤ 17 }
{
    if r.version == 0 {
        return 0;
    }
    let version = r.get_sdk_minor_version();
    2 + digits(version.sdk_version) + number_cost(1, version.minor_version)
}

// Places 15 to 23.
pub(crate) fn last_cost(r: ResTableConfig) -> usize
    ensures result_value { suc result ≡ length (say_all (ascii "-") (drop 15 (places_of r))) }
    ensures upper_bound { result ≤ 400 }
{
    night_cost(r) + screen_cost(r) + keys_cost(r) + pixel_cost(r) + version_cost(r)
}
