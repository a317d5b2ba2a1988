// What the places before the UI mode add.
ghost use Rattle.std.specs.Prelude.{suc, ◌≤◌, ◌++◌, ◌≡◌, length, take, drop};
ghost use Rattle.buffer.specs.Ascii.{ascii};
ghost use Rattle.places.specs.Say.{say_all};
ghost use Rattle.places.specs.Places.{places_of};

use crate::cost::{kind_cost, number_cost};
use kinds::{
    GrammaticalGender, Hdr, LayoutDir, Orientation, ScreenLong, ScreenRound, ScreenSize,
    WideColorGamut,
};
use locale::locale_length;
use record::ResTableConfig;

// Places 0 and 1: the codes, of `imsi`.
fn codes_cost(r: ResTableConfig) -> usize
    ensures result_value { suc result ≡ length (say_all (ascii "-") (take 2 (places_of r))) }
    ensures upper_bound { result ≤ 20 }
{
    if r.imsi == 0 {
        return 0;
    }
    let codes = r.get_mcc_mnc();
    number_cost(4, codes.mcc) + number_cost(4, codes.mnc)
}

// Place 2: the locale.
pub(crate) fn locale_cost(r: ResTableConfig) -> usize
    ensures result_value { suc result ≡ length (say_all (ascii "-") (take 1 (drop 2 (places_of r)))) }
    ensures upper_bound { result ≤ 85 }
{
    if r.locale % 256 == 0 {
        return 0;
    }
    1 + locale_length(r)
}

// Place 3: the gender, of `generic_purpose_field`.
fn gender_cost(r: ResTableConfig) -> usize
    ensures result_value { suc result ≡ length (say_all (ascii "-") (take 1 (drop 3 (places_of r)))) }
    ensures upper_bound { result ≤ 26 }
{
    if r.generic_purpose_field == 0 {
        return 0;
    }
    let gender = GrammaticalGender::from(r.get_grammatical_inflection());
    kind_cost(gender)
}

// Places 4, 5, 8 and 9: layout direction, smallest width, size and long, of `screen_config`.
fn layout_cost(r: ResTableConfig) -> usize
    ensures result_value { suc result ≡ length (say_all (ascii "-") (take 2 (drop 4 (places_of r)) ++ take 2 (drop 8 (places_of r)))) }
    ensures upper_bound { result ≤ 88 }
{
    if r.screen_config == 0 {
        return 0;
    }
    let layout = r.get_screen_layout_ui_smallest_width();
    let direction = LayoutDir::from(layout.screen_layout);
    let size = ScreenSize::from(layout.screen_layout);
    let long = ScreenLong::from(layout.screen_layout);
    kind_cost(direction)
        + number_cost(5, layout.smallest_screen_width_dp)
        + kind_cost(size)
        + kind_cost(long)
}

// Places 6 and 7: width and height, of `screen_size_dp`.
fn dp_cost(r: ResTableConfig) -> usize
    ensures result_value { suc result ≡ length (say_all (ascii "-") (take 2 (drop 6 (places_of r)))) }
    ensures upper_bound { result ≤ 20 }
{
    if r.screen_size_dp == 0 {
        return 0;
    }
    let dp = r.get_screen_width_height_dp();
    number_cost(4, dp.screen_width_dp) + number_cost(4, dp.screen_height_dp)
}

// Places 10 to 12: round, wide gamut and HDR, of `screen_config_2`.
fn second_cost(r: ResTableConfig) -> usize
    ensures result_value { suc result ≡ length (say_all (ascii "-") (take 3 (drop 10 (places_of r)))) }
    ensures upper_bound { result ≤ 78 }
{
    if r.screen_config_2 == 0 {
        return 0;
    }
    let second = r.get_screen_layout_2_color_mode();
    let round = ScreenRound::from(second.screen_layout_2);
    let gamut = WideColorGamut::from(second.color_mode);
    let hdr = Hdr::from(second.color_mode);
    kind_cost(round) + kind_cost(gamut) + kind_cost(hdr)
}

// Place 13: the orientation, of `screen_type`.
fn orientation_cost(r: ResTableConfig) -> usize
    ensures result_value { suc result ≡ length (say_all (ascii "-") (take 1 (drop 13 (places_of r)))) }
    ensures upper_bound { result ≤ 26 }
{
    if r.screen_type == 0 {
        return 0;
    }
    let screen = r.get_orientation_touchscreen_density();
    let orientation = Orientation::from(screen.orientation);
    kind_cost(orientation)
}

// Places 0 to 13, of which the locale adds so much.
pub(crate) fn first_cost(r: ResTableConfig, locale: usize) -> usize
    requires { (suc locale ≡ length (say_all (ascii "-") (take 1 (drop 2 (places_of r))))) × (locale ≤ 85) }
    ensures result_value { suc result ≡ length (say_all (ascii "-") (take 14 (places_of r))) }
    ensures upper_bound { result ≤ 400 }
{
    codes_cost(r)
        + locale
        + gender_cost(r)
        + (layout_cost(r) + dp_cost(r))
        + second_cost(r)
        + orientation_cost(r)
}
