// Which places a record says, as bits.
ghost use Rattle.std.specs.Prelude.{◌≡◌, ◌≤◌, ◌<◌, eqb, take, drop, not};
ghost use Rattle.record.specs.Table.{bit};
ghost use Rattle.sheet.specs.Sheet.{bits, said_of};

use kinds::{
    Density, GrammaticalGender, Hdr, Keyboard, KeysHidden, LayoutDir, NavHidden, Navigation,
    Orientation, ScreenLong, ScreenRound, ScreenSize, Touchscreen, UIMode, UIModeNight,
    WideColorGamut,
};
use record::ResTableConfig;
use said_kinds::Said;

// 1 for yes.
fn bit_of(b: bool) -> u32
    ensures { (result ≡ bit b) × (result ≤ 1) }
{
    if b { 1 } else { 0 }
}

// 1 for a kind that is said.
fn kind_bit<K: Said>(kind: K) -> u32
    ensures { (result ≡ bit (K.said kind)) × (result ≤ 1) }
{
    bit_of(kind.is_said())
}

// 1 for a number that isn't 0.
fn some_bit(n: u32) -> u32
    ensures { (result ≡ bit (not (eqb n 0))) × (result ≤ 1) }
{
    bit_of(n != 0)
}

// Places 0 to 3.
fn said_from_0(r: ResTableConfig) -> u32
    ensures { (result ≡ bits (take 4 (said_of r))) × (result < 16) }
{
    let codes = r.get_mcc_mnc();
    let gender = r.get_grammatical_inflection();
    let a = some_bit(codes.mcc as u32);
    let b = some_bit(codes.mnc as u32);
    let c = some_bit(r.locale % 256);
    let d = kind_bit(GrammaticalGender::from(gender));
    a + 2 * (b + 2 * (c + 2 * d))
}

// Places 4 to 7.
fn said_from_4(r: ResTableConfig) -> u32
    ensures { (result ≡ bits (take 4 (drop 4 (said_of r)))) × (result < 16) }
{
    let layout = r.get_screen_layout_ui_smallest_width();
    let dp = r.get_screen_width_height_dp();
    let a = kind_bit(LayoutDir::from(layout.screen_layout));
    let b = some_bit(layout.smallest_screen_width_dp as u32);
    let c = some_bit(dp.screen_width_dp as u32);
    let d = some_bit(dp.screen_height_dp as u32);
    a + 2 * (b + 2 * (c + 2 * d))
}

// Places 8 to 12.
fn said_from_8(r: ResTableConfig) -> u32
    ensures { (result ≡ bits (take 5 (drop 8 (said_of r)))) × (result < 32) }
{
    let layout = r.get_screen_layout_ui_smallest_width();
    let second = r.get_screen_layout_2_color_mode();
    let a = kind_bit(ScreenSize::from(layout.screen_layout));
    let b = kind_bit(ScreenLong::from(layout.screen_layout));
    let c = kind_bit(ScreenRound::from(second.screen_layout_2));
    let d = kind_bit(WideColorGamut::from(second.color_mode));
    let e = kind_bit(Hdr::from(second.color_mode));
    a + 2 * (b + 2 * (c + 2 * (d + 2 * e)))
}

// Places 13 to 17.
fn said_from_13(r: ResTableConfig) -> u32
    ensures { (result ≡ bits (take 5 (drop 13 (said_of r)))) × (result < 32) }
{
    let screen = r.get_orientation_touchscreen_density();
    let layout = r.get_screen_layout_ui_smallest_width();
    let a = kind_bit(Orientation::from(screen.orientation));
    let b = kind_bit(UIMode::from(layout.ui_mode));
    let c = kind_bit(UIModeNight::from(layout.ui_mode));
    let d = kind_bit(Density::from(screen.density));
    let e = kind_bit(Touchscreen::from(screen.touchscreen));
    a + 2 * (b + 2 * (c + 2 * (d + 2 * e)))
}

// Places 18 to 23.
fn said_from_18(r: ResTableConfig) -> u32
    ensures { (result ≡ bits (drop 18 (said_of r))) × (result < 64) }
{
    let input = r.get_keyboard_navigation_input_flags();
    let a = kind_bit(KeysHidden::from(input.input_flags));
    let b = kind_bit(Keyboard::from(input.keyboard));
    let c = kind_bit(NavHidden::from(input.input_flags));
    let d = kind_bit(Navigation::from(input.navigation));
    let e = some_bit(r.screen_size);
    let f = some_bit(r.version);
    a + 2 * (b + 2 * (c + 2 * (d + 2 * (e + 2 * f))))
}

// All twenty-four, place 0 lowest.
pub(crate) fn said(r: ResTableConfig) -> u32
    ensures { result ≡ bits (said_of r) }
{
    let a = said_from_0(r);
    let b = said_from_4(r);
    let c = said_from_8(r);
    let d = said_from_13(r);
    let e = said_from_18(r);
    a + 16 * (b + 16 * (c + 32 * (d + 32 * e)))
}
