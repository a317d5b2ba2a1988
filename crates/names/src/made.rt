// The record that the values of a name's slots make.
ghost use Rattle.std.specs.Prelude.{◌≡◌, ◌+◌, ◌*◌};
ghost use Rattle.grammar.specs.Made.{made, word};

use parts::slots::{
    DENSITY, GAMUT, GENDER, HDR, HEIGHT, KEYBOARD, KEYS_HIDDEN, LANGUAGE, LAYOUT_DIR, MCC, MNC,
    NAV_HIDDEN, NAVIGATION, NIGHT, ORIENTATION, REGION, SCREEN_LONG, SCREEN_ROUND, SCREEN_SIZE,
    SIDES, SMALLEST_WIDTH, TOUCHSCREEN, UI_TYPE, VERSION, WIDTH,
};
use record::ResTableConfig;

// The lower 32 bits.
fn word(n: u64) -> u32
    ensures { result ≡ word n }
{
    (n % 4294967296) as u32
}

// Two halves of a word.
fn halves(a: u32, b: u32) -> u32
    ensures { result ≡ word (a + b * 65536) }
{
    word(a as u64 + b as u64 * 65536)
}

// `screen_type`, of orientation, touchscreen and density.
fn screen_type(a: u32, b: u32, c: u32) -> u32
    ensures { result ≡ word (a + b * 256 + c * 65536) }
{
    word(a as u64 + b as u64 * 256 + c as u64 * 65536)
}

// `generic_purpose_field`, of keyboard, navigation, keys hidden, navigation hidden and gender.
fn input(a: u32, b: u32, c: u32, d: u32, e: u32) -> u32
    ensures { result ≡ word (a + b * 256 + (c + d) * 65536 + e * 16777216) }
{
    word(a as u64 + b as u64 * 256 + (c as u64 + d as u64) * 65536 + e as u64 * 16777216)
}

// `screen_config`, of the layout's direction, size and length, UI type, night and smallest width.
fn screen_config(a: u32, b: u32, c: u32, d: u32, e: u32, f: u32) -> u32
    ensures { result ≡ word ((a + b + c) + (d + e) * 256 + f * 65536) }
{
    word((a as u64 + b as u64 + c as u64) + (d as u64 + e as u64) * 256 + f as u64 * 65536)
}

// `screen_config_2`, of roundness, gamut and dynamic range.
fn screen_config_2(a: u32, b: u32, c: u32) -> u32
    ensures { result ≡ word (a + (b + c) * 256) }
{
    word(a as u64 + (b as u64 + c as u64) * 256)
}

// The record, of size 64, with zero in everything that isn't named.
pub(crate) fn record_of(values: [u32; 25]) -> ResTableConfig
    ensures { result ≡ made values }
{
    ResTableConfig {
        size: 64,
        imsi: halves(values[MCC], values[MNC]),
        locale: halves(values[LANGUAGE], values[REGION]),
        screen_type: screen_type(values[ORIENTATION], values[TOUCHSCREEN], values[DENSITY]),
        generic_purpose_field: input(
            values[KEYBOARD],
            values[NAVIGATION],
            values[KEYS_HIDDEN],
            values[NAV_HIDDEN],
            values[GENDER],
        ),
        screen_size: word(values[SIDES] as u64),
        version: word(values[VERSION] as u64),
        screen_config: screen_config(
            values[LAYOUT_DIR],
            values[SCREEN_SIZE],
            values[SCREEN_LONG],
            values[UI_TYPE],
            values[NIGHT],
            values[SMALLEST_WIDTH],
        ),
        screen_size_dp: halves(values[WIDTH], values[HEIGHT]),
        locale_script: [0; 4],
        locale_variant: [0; 8],
        screen_config_2: screen_config_2(values[SCREEN_ROUND], values[GAMUT], values[HDR]),
        locale_script_was_computed: false,
        locale_numbering_system: [0; 8],
        end_padding: [0; 3],
    }
}
