// The accessors of 000: the parts of a record's words, and the density set anew.
ghost use Rattle.std.specs.Prelude.{◌≡◌};
ghost use Rattle.record.specs.Accessors.{grammatical_inflection_of, input_of, keyboard_navigation_input_flags_of, mcc_mnc_of};
ghost use Rattle.record.specs.Accessors.{orientation_touchscreen_density_of, screen_layout2_color_mode_of, screen_layout_ui_smallest_width_of};
ghost use Rattle.record.specs.Accessors.{screen_width_height_dp_of, screen_width_height_of, sdk_minor_version_of, with_density};

use crate::ResTableConfig;
use kinds::Density;

// What `imsi` holds.
#[derive(Clone, Copy)]
pub struct MccMnc {
    pub mcc: u16,
    pub mnc: u16,
}

// What `screen_type` holds.
#[derive(Clone, Copy)]
pub struct OrientationTouchscreenDensity {
    pub orientation: u8,
    pub touchscreen: u8,
    pub density: u16,
}

// What the three lower bytes of `generic_purpose_field` hold.
#[derive(Clone, Copy)]
pub struct KeyboardNavigationInputFlags {
    pub keyboard: u8,
    pub navigation: u8,
    pub input_flags: u8,
}

// What `screen_size` holds.
#[derive(Clone, Copy)]
pub struct ScreenWidthHeight {
    pub screen_width: u16,
    pub screen_height: u16,
}

// What `version` holds.
#[derive(Clone, Copy)]
pub struct SdkMinorVersion {
    pub sdk_version: u16,
    pub minor_version: u16,
}

// What `screen_config` holds.
#[derive(Clone, Copy)]
pub struct ScreenLayoutUiSmallestWidth {
    pub screen_layout: u8,
    pub ui_mode: u8,
    pub smallest_screen_width_dp: u16,
}

// What `screen_size_dp` holds.
#[derive(Clone, Copy)]
pub struct ScreenWidthHeightDp {
    pub screen_width_dp: u16,
    pub screen_height_dp: u16,
}

// What the two lower bytes of `screen_config_2` hold.
#[derive(Clone, Copy)]
pub struct ScreenLayout2ColorMode {
    pub screen_layout_2: u8,
    pub color_mode: u8,
}

impl ResTableConfig {
    // The mobile country and network codes, the halves of `imsi`.
    pub fn get_mcc_mnc(self) -> MccMnc
        ensures { result ≡ mcc_mnc_of self }
    {
        MccMnc {
            mcc: (self.imsi % 65536) as u16,
            mnc: (self.imsi / 65536) as u16,
        }
    }

    // Orientation, touchscreen and density, the parts of `screen_type`.
    pub fn get_orientation_touchscreen_density(self) -> OrientationTouchscreenDensity
        ensures { result ≡ orientation_touchscreen_density_of self }
    {
        OrientationTouchscreenDensity {
            orientation: (self.screen_type % 256) as u8,
            touchscreen: (self.screen_type / 256 % 256) as u8,
            density: (self.screen_type / 65536) as u16,
        }
    }

    // Keyboard, navigation and input flags, the three lower bytes of `generic_purpose_field`.
    pub fn get_keyboard_navigation_input_flags(self) -> KeyboardNavigationInputFlags
        ensures { result ≡ keyboard_navigation_input_flags_of self }
    {
        KeyboardNavigationInputFlags {
            keyboard: (self.generic_purpose_field % 256) as u8,
            navigation: (self.generic_purpose_field / 256 % 256) as u8,
            input_flags: (self.generic_purpose_field / 65536 % 256) as u8,
        }
    }

    // The three lower bytes of `generic_purpose_field` as one number.
    pub fn get_input(self) -> u32
        ensures { result ≡ input_of self }
    {
        self.generic_purpose_field % 16777216
    }

    // The grammatical inflection, the upper byte of `generic_purpose_field`.
    pub fn get_grammatical_inflection(self) -> u8
        ensures { result ≡ grammatical_inflection_of self }
    {
        (self.generic_purpose_field / 16777216) as u8
    }

    // Width and height in pixels, the halves of `screen_size`.
    pub fn get_screen_width_height(self) -> ScreenWidthHeight
        ensures { result ≡ screen_width_height_of self }
    {
        ScreenWidthHeight {
            screen_width: (self.screen_size % 65536) as u16,
            screen_height: (self.screen_size / 65536) as u16,
        }
    }

    // The platform's version and its minor one, the halves of `version`.
    pub fn get_sdk_minor_version(self) -> SdkMinorVersion
        ensures { result ≡ sdk_minor_version_of self }
    {
        SdkMinorVersion {
            sdk_version: (self.version % 65536) as u16,
            minor_version: (self.version / 65536) as u16,
        }
    }

    // Screen layout, UI mode and smallest width, the parts of `screen_config`.
    pub fn get_screen_layout_ui_smallest_width(self) -> ScreenLayoutUiSmallestWidth
        ensures { result ≡ screen_layout_ui_smallest_width_of self }
    {
        ScreenLayoutUiSmallestWidth {
            screen_layout: (self.screen_config % 256) as u8,
            ui_mode: (self.screen_config / 256 % 256) as u8,
            smallest_screen_width_dp: (self.screen_config / 65536) as u16,
        }
    }

    // Width and height in dp, the halves of `screen_size_dp`.
    pub fn get_screen_width_height_dp(self) -> ScreenWidthHeightDp
        ensures { result ≡ screen_width_height_dp_of self }
    {
        ScreenWidthHeightDp {
            screen_width_dp: (self.screen_size_dp % 65536) as u16,
            screen_height_dp: (self.screen_size_dp / 65536) as u16,
        }
    }

    // The second screen layout and the color mode, the two lower bytes of `screen_config_2`.
    pub fn get_screen_layout_2_color_mode(self) -> ScreenLayout2ColorMode
        ensures { result ≡ screen_layout2_color_mode_of self }
    {
        ScreenLayout2ColorMode {
            screen_layout_2: (self.screen_config_2 % 256) as u8,
            color_mode: (self.screen_config_2 / 256 % 256) as u8,
        }
    }

    // The record with another density, the upper half of `screen_type`.
    pub fn set_density(mut self, density: Density) -> ResTableConfig
        ensures { result ≡ with_density self density }
    {
        let n = u16::from(density);
        self.screen_type = self.screen_type % 65536 + (n as u32) * 65536;
        self
    }
}
