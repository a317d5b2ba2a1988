#![tactic(auto)]
// Constants held to their names: a constant that nothing reads could else be changed unseen, and so could two that are swapped together
// with their rows in `nth`. The functions do nothing.
ghost use Rattle.std.specs.Prelude.{◌≡◌};
ghost use Rattle.flags.specs.Flags as flag;
ghost use Rattle.record.specs.Ages.{default_age};

use flags::ResTableConfigFlags;
use record::Age;

// Each age is the number in its name, and the default is the one of the definitions.
fn ages_named()
    ensures a16 { Age.A16.0 ≡ 16 }
    ensures a20 { Age.A20.0 ≡ 20 }
    ensures a24 { Age.A24.0 ≡ 24 }
    ensures a28 { Age.A28.0 ≡ 28 }
    ensures a32 { Age.A32.0 ≡ 32 }
    ensures a36 { Age.A36.0 ≡ 36 }
    ensures a40 { Age.A40.0 ≡ 40 }
    ensures a48 { Age.A48.0 ≡ 48 }
    ensures a52 { Age.A52.0 ≡ 52 }
    ensures a53 { Age.A53.0 ≡ 53 }
    ensures a61 { Age.A61.0 ≡ 61 }
    ensures a64 { Age.A64.0 ≡ 64 }
    ensures default { Age.DEFAULT.0 ≡ default_age }
{}

// Each flag is the one that 000 has under its name.
fn flags_named()
    ensures config_mcc { ResTableConfigFlags.CONFIG_MCC.0 ≡ flag.CONFIG_MCC }
    ensures config_mnc { ResTableConfigFlags.CONFIG_MNC.0 ≡ flag.CONFIG_MNC }
    ensures config_locale { ResTableConfigFlags.CONFIG_LOCALE.0 ≡ flag.CONFIG_LOCALE }
    ensures config_touchscreen { ResTableConfigFlags.CONFIG_TOUCHSCREEN.0 ≡ flag.CONFIG_TOUCHSCREEN }
    ensures config_keyboard { ResTableConfigFlags.CONFIG_KEYBOARD.0 ≡ flag.CONFIG_KEYBOARD }
    ensures config_keyboard_hidden { ResTableConfigFlags.CONFIG_KEYBOARD_HIDDEN.0 ≡ flag.CONFIG_KEYBOARD_HIDDEN }
    ensures config_navigation { ResTableConfigFlags.CONFIG_NAVIGATION.0 ≡ flag.CONFIG_NAVIGATION }
    ensures config_orientation { ResTableConfigFlags.CONFIG_ORIENTATION.0 ≡ flag.CONFIG_ORIENTATION }
    ensures config_density { ResTableConfigFlags.CONFIG_DENSITY.0 ≡ flag.CONFIG_DENSITY }
    ensures config_screen_size { ResTableConfigFlags.CONFIG_SCREEN_SIZE.0 ≡ flag.CONFIG_SCREEN_SIZE }
    ensures config_smallest_screen_size { ResTableConfigFlags.CONFIG_SMALLEST_SCREEN_SIZE.0 ≡ flag.CONFIG_SMALLEST_SCREEN_SIZE }
    ensures config_version { ResTableConfigFlags.CONFIG_VERSION.0 ≡ flag.CONFIG_VERSION }
    ensures config_screen_layout { ResTableConfigFlags.CONFIG_SCREEN_LAYOUT.0 ≡ flag.CONFIG_SCREEN_LAYOUT }
    ensures config_ui_mode { ResTableConfigFlags.CONFIG_UI_MODE.0 ≡ flag.CONFIG_UI_MODE }
    ensures config_layoutdir { ResTableConfigFlags.CONFIG_LAYOUTDIR.0 ≡ flag.CONFIG_LAYOUTDIR }
    ensures config_screen_round { ResTableConfigFlags.CONFIG_SCREEN_ROUND.0 ≡ flag.CONFIG_SCREEN_ROUND }
    ensures config_color_mode { ResTableConfigFlags.CONFIG_COLOR_MODE.0 ≡ flag.CONFIG_COLOR_MODE }
    ensures config_grammatical_gender { ResTableConfigFlags.CONFIG_GRAMMATICAL_GENDER.0 ≡ flag.CONFIG_GRAMMATICAL_GENDER }
    ensures spec_public { ResTableConfigFlags.SPEC_PUBLIC.0 ≡ flag.SPEC_PUBLIC }
    ensures spec_staged_api { ResTableConfigFlags.SPEC_STAGED_API.0 ≡ flag.SPEC_STAGED_API }
{}
