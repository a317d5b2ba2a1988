#![tactic(auto)]
// The record, its field table, and the ages of its readers.
mod accessors;
mod ages;

ghost use Rattle.std.specs.Prelude.{◌≡◌};
ghost use Rattle.record.specs.Blank.{blank_record};
ghost use Rattle.record.specs.Table.{end_of, start_of};

pub use accessors::{
    KeyboardNavigationInputFlags, MccMnc, OrientationTouchscreenDensity, ScreenLayout2ColorMode,
    ScreenLayoutUiSmallestWidth, ScreenWidthHeight, ScreenWidthHeightDp, SdkMinorVersion,
};
pub use ages::Age;

// A resource configuration, with 000's fields in the table's order.
#[derive(Clone, Copy)]
pub struct ResTableConfig {
    pub size: u32,
    pub imsi: u32,
    pub locale: u32,
    pub screen_type: u32,
    pub generic_purpose_field: u32,
    pub screen_size: u32,
    pub version: u32,
    pub screen_config: u32,
    pub screen_size_dp: u32,
    pub locale_script: [u8; 4],
    pub locale_variant: [u8; 8],
    pub screen_config_2: u32,
    pub locale_script_was_computed: bool,
    pub locale_numbering_system: [u8; 8],
    pub end_padding: [u8; 3],
}

// Where each of the fifteen fields starts.
pub const STARTS: [usize; 15] = [0, 4, 8, 12, 16, 20, 24, 28, 32, 36, 40, 48, 52, 53, 61];

// Where each of the fifteen fields ends, end not included.
pub const ENDS: [usize; 15] = [4, 8, 12, 16, 20, 24, 28, 32, 36, 40, 48, 52, 53, 61, 64];

// Where a field starts, fields counted from 0, and 0 past the last.
pub fn field_start(f: usize) -> usize
    ensures { result ≡ start_of f }
{
    if f < 15 { STARTS[f] } else { 0 }
}

// Where a field ends, fields counted from 0, and 0 past the last.
pub fn field_end(f: usize) -> usize
    ensures { result ≡ end_of f }
{
    if f < 15 { ENDS[f] } else { 0 }
}

// The record that holds nothing.
pub fn blank() -> ResTableConfig
    ensures { result ≡ blank_record }
{
    ResTableConfig {
        size: 0,
        imsi: 0,
        locale: 0,
        screen_type: 0,
        generic_purpose_field: 0,
        screen_size: 0,
        version: 0,
        screen_config: 0,
        screen_size_dp: 0,
        locale_script: [0; 4],
        locale_variant: [0; 8],
        screen_config_2: 0,
        locale_script_was_computed: false,
        locale_numbering_system: [0; 8],
        end_padding: [0; 3],
    }
}
