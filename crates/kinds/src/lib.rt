#![tactic(auto)]
// The sixteen kinds of 000, each read from the number that a record holds.
mod input;
mod mode;
mod screen;

pub use input::{Keyboard, KeysHidden, NavHidden, Navigation, Touchscreen};
pub use mode::{GrammaticalGender, UIMode, UIModeNight};
pub use screen::{
    Density, Hdr, LayoutDir, Orientation, ScreenLong, ScreenRound, ScreenSize, WideColorGamut,
};

// One of the sixteen kinds.
#[derive(Clone, Copy, Debug, PartialEq, Eq)]
pub enum Kind {
    GrammaticalGender(GrammaticalGender),
    LayoutDir(LayoutDir),
    ScreenSize(ScreenSize),
    ScreenLong(ScreenLong),
    ScreenRound(ScreenRound),
    WideColorGamut(WideColorGamut),
    Hdr(Hdr),
    Orientation(Orientation),
    UIMode(UIMode),
    UIModeNight(UIModeNight),
    Density(Density),
    Touchscreen(Touchscreen),
    KeysHidden(KeysHidden),
    Keyboard(Keyboard),
    NavHidden(NavHidden),
    Navigation(Navigation),
}
