// The slots of a directory name: the text's twenty-four places in their order, and the region in a slot of its own behind the language.

// The mobile country code.
pub const MCC: usize = 0;

// The mobile network code.
pub const MNC: usize = 1;

// The language.
pub const LANGUAGE: usize = 2;

// The region.
pub const REGION: usize = 3;

// The grammatical gender.
pub const GENDER: usize = 4;

// The direction of the layout.
pub const LAYOUT_DIR: usize = 5;

// The smallest width in dp.
pub const SMALLEST_WIDTH: usize = 6;

// The width in dp.
pub const WIDTH: usize = 7;

// The height in dp.
pub const HEIGHT: usize = 8;

// The size of the screen.
pub const SCREEN_SIZE: usize = 9;

// Whether the screen is long.
pub const SCREEN_LONG: usize = 10;

// Whether the screen is round.
pub const SCREEN_ROUND: usize = 11;

// Whether the gamut is wide.
pub const GAMUT: usize = 12;

// The dynamic range.
pub const HDR: usize = 13;

// The orientation.
pub const ORIENTATION: usize = 14;

// The UI type.
pub const UI_TYPE: usize = 15;

// Night.
pub const NIGHT: usize = 16;

// The density.
pub const DENSITY: usize = 17;

// The touchscreen.
pub const TOUCHSCREEN: usize = 18;

// Whether keys are hidden.
pub const KEYS_HIDDEN: usize = 19;

// The keyboard.
pub const KEYBOARD: usize = 20;

// Whether navigation is hidden.
pub const NAV_HIDDEN: usize = 21;

// The navigation.
pub const NAVIGATION: usize = 22;

// Both sides in pixels.
pub const SIDES: usize = 23;

// The platform's version.
pub const VERSION: usize = 24;
