#![tactic(auto)]
// The flags that say in which ways configurations differ, and two more that an entry has.
ghost use Rattle.std.specs.Prelude.{◌≡◌, get_or};
ghost use Rattle.flags.specs.Flags.{flags};

// A set of flags, a bit for each.
#[derive(Clone, Copy)]
pub struct ResTableConfigFlags(pub u32);

impl ResTableConfigFlags {
    // The mobile country code.
    pub const CONFIG_MCC: ResTableConfigFlags = ResTableConfigFlags(0x0001);

    // The mobile network code.
    pub const CONFIG_MNC: ResTableConfigFlags = ResTableConfigFlags(0x0002);

    // Language and region.
    pub const CONFIG_LOCALE: ResTableConfigFlags = ResTableConfigFlags(0x0004);

    // What the screen is touched with.
    pub const CONFIG_TOUCHSCREEN: ResTableConfigFlags = ResTableConfigFlags(0x0008);

    // The type of keyboard.
    pub const CONFIG_KEYBOARD: ResTableConfigFlags = ResTableConfigFlags(0x0010);

    // Whether the keyboard is out of reach.
    pub const CONFIG_KEYBOARD_HIDDEN: ResTableConfigFlags = ResTableConfigFlags(0x0020);

    // The means of navigation.
    pub const CONFIG_NAVIGATION: ResTableConfigFlags = ResTableConfigFlags(0x0040);

    // Which way the screen is held.
    pub const CONFIG_ORIENTATION: ResTableConfigFlags = ResTableConfigFlags(0x0080);

    // Dots per inch.
    pub const CONFIG_DENSITY: ResTableConfigFlags = ResTableConfigFlags(0x0100);

    // Width and height.
    pub const CONFIG_SCREEN_SIZE: ResTableConfigFlags = ResTableConfigFlags(0x0200);

    // The smaller side of the screen; 000 lists it here, before the lower values.
    pub const CONFIG_SMALLEST_SCREEN_SIZE: ResTableConfigFlags = ResTableConfigFlags(0x2000);

    // The platform's version.
    pub const CONFIG_VERSION: ResTableConfigFlags = ResTableConfigFlags(0x0400);

    // How large and how long the screen is.
    pub const CONFIG_SCREEN_LAYOUT: ResTableConfigFlags = ResTableConfigFlags(0x0800);

    // Desk, car, watch and the like, and night.
    pub const CONFIG_UI_MODE: ResTableConfigFlags = ResTableConfigFlags(0x1000);

    // Left to right, or right to left.
    pub const CONFIG_LAYOUTDIR: ResTableConfigFlags = ResTableConfigFlags(0x4000);

    // Whether the screen is round.
    pub const CONFIG_SCREEN_ROUND: ResTableConfigFlags = ResTableConfigFlags(0x8000);

    // Wide gamut and high dynamic range.
    pub const CONFIG_COLOR_MODE: ResTableConfigFlags = ResTableConfigFlags(0x10000);

    // The grammatical gender of who is spoken to.
    pub const CONFIG_GRAMMATICAL_GENDER: ResTableConfigFlags = ResTableConfigFlags(0x20000);

    // The entry is public.
    pub const SPEC_PUBLIC: ResTableConfigFlags = ResTableConfigFlags(0x40000000);

    // The entry's id may change in a later build; such an entry is public as well.
    pub const SPEC_STAGED_API: ResTableConfigFlags = ResTableConfigFlags(0x20000000);

    // The flag in a row of 000's list, rows counted from 0; no flag past the last.
    pub fn nth(row: usize) -> Self
        ensures { result.0 ≡ get_or flags row 0 }
    {
        match row {
            0 => Self::CONFIG_MCC,
            1 => Self::CONFIG_MNC,
            2 => Self::CONFIG_LOCALE,
            3 => Self::CONFIG_TOUCHSCREEN,
            4 => Self::CONFIG_KEYBOARD,
            5 => Self::CONFIG_KEYBOARD_HIDDEN,
            6 => Self::CONFIG_NAVIGATION,
            7 => Self::CONFIG_ORIENTATION,
            8 => Self::CONFIG_DENSITY,
            9 => Self::CONFIG_SCREEN_SIZE,
            10 => Self::CONFIG_SMALLEST_SCREEN_SIZE,
            11 => Self::CONFIG_VERSION,
            12 => Self::CONFIG_SCREEN_LAYOUT,
            13 => Self::CONFIG_UI_MODE,
            14 => Self::CONFIG_LAYOUTDIR,
            15 => Self::CONFIG_SCREEN_ROUND,
            16 => Self::CONFIG_COLOR_MODE,
            17 => Self::CONFIG_GRAMMATICAL_GENDER,
            18 => Self::SPEC_PUBLIC,
            19 => Self::SPEC_STAGED_API,
            _ => ResTableConfigFlags(0),
        }
    }
}
