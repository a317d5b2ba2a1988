#![tactic(auto)]
// The sheet of a record: its sixteen kinds, its plain numbers and which places it says.
mod said;

ghost use Rattle.std.specs.Prelude.{◌≡◌};
ghost use Rattle.sheet.specs.Sheet.{network_code_of, sheet_of};

use kinds::{
    Density, GrammaticalGender, Hdr, Keyboard, KeysHidden, LayoutDir, NavHidden, Navigation,
    Orientation, ScreenLong, ScreenRound, ScreenSize, Touchscreen, UIMode, UIModeNight,
    WideColorGamut,
};
use record::ResTableConfig;
use said::said;

// A network code: silent, or a code, which may be 0.
#[derive(Clone, Copy)]
pub enum NetworkCode {
    Silent,
    Code(u16),
}

// What a record holds, taken apart; bit k of said is 1 where place k is said.
#[derive(Clone, Copy)]
pub struct Sheet {
    pub mcc: u16,
    pub network_code: NetworkCode,
    pub smallest_screen_width_dp: u16,
    pub screen_width_dp: u16,
    pub screen_height_dp: u16,
    pub screen_width: u16,
    pub screen_height: u16,
    pub sdk_version: u16,
    pub minor_version: u16,
    pub grammatical_gender: GrammaticalGender,
    pub layout_dir: LayoutDir,
    pub screen_size: ScreenSize,
    pub screen_long: ScreenLong,
    pub screen_round: ScreenRound,
    pub wide_color_gamut: WideColorGamut,
    pub hdr: Hdr,
    pub orientation: Orientation,
    pub ui_mode: UIMode,
    pub ui_mode_night: UIModeNight,
    pub density: Density,
    pub touchscreen: Touchscreen,
    pub keys_hidden: KeysHidden,
    pub keyboard: Keyboard,
    pub nav_hidden: NavHidden,
    pub navigation: Navigation,
    pub said: u32,
}

// The network code of a stored number: 65535 is stored for a code of zero that is stated.
fn network_code(mnc: u16) -> NetworkCode
    ensures { result ≡ network_code_of mnc }
{
    match mnc {
        0 => NetworkCode::Silent,
        65535 => NetworkCode::Code(0),
        _ => NetworkCode::Code(mnc),
    }
}

// The sheet of a record.
pub fn sheet_of(r: ResTableConfig) -> Sheet
    ensures { result ≡ sheet_of r }
{
    let codes = r.get_mcc_mnc();
    let layout = r.get_screen_layout_ui_smallest_width();
    let second = r.get_screen_layout_2_color_mode();
    let screen = r.get_orientation_touchscreen_density();
    let input = r.get_keyboard_navigation_input_flags();
    let dp = r.get_screen_width_height_dp();
    let sides = r.get_screen_width_height();
    let version = r.get_sdk_minor_version();
    Sheet {
        mcc: codes.mcc,
        network_code: network_code(codes.mnc),
        smallest_screen_width_dp: layout.smallest_screen_width_dp,
        screen_width_dp: dp.screen_width_dp,
        screen_height_dp: dp.screen_height_dp,
        screen_width: sides.screen_width,
        screen_height: sides.screen_height,
        sdk_version: version.sdk_version,
        minor_version: version.minor_version,
        grammatical_gender: GrammaticalGender::from(r.get_grammatical_inflection()),
        layout_dir: LayoutDir::from(layout.screen_layout),
        screen_size: ScreenSize::from(layout.screen_layout),
        screen_long: ScreenLong::from(layout.screen_layout),
        screen_round: ScreenRound::from(second.screen_layout_2),
        wide_color_gamut: WideColorGamut::from(second.color_mode),
        hdr: Hdr::from(second.color_mode),
        orientation: Orientation::from(screen.orientation),
        ui_mode: UIMode::from(layout.ui_mode),
        ui_mode_night: UIModeNight::from(layout.ui_mode),
        density: Density::from(screen.density),
        touchscreen: Touchscreen::from(screen.touchscreen),
        keys_hidden: KeysHidden::from(input.input_flags),
        keyboard: Keyboard::from(input.keyboard),
        nav_hidden: NavHidden::from(input.input_flags),
        navigation: Navigation::from(input.navigation),
        said: said(r),
    }
}
