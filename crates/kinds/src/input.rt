// The kinds that speak of touch, keys and navigation.
ghost use Rattle.std.specs.Prelude.{◌≡◌};
ghost use Rattle.kinds.specs.Input.{touchscreen_of, keys_hidden_of, keyboard_of, nav_hidden_of, navigation_of};

// What a screen is touched with.
#[derive(Clone, Copy, Debug, PartialEq, Eq)]
pub enum Touchscreen {
    Any,
    NoTouch,
    Stylus,
    Finger,
    Unknown(u8),
}

// From the whole byte.
impl From<u8> for Touchscreen {
    ghost from_gives = { λ n kind. kind ≡ touchscreen_of n };

    fn from(value: u8) -> Self {
        match value {
            0x00 => Self::Any,
            0x01 => Self::NoTouch,
            0x02 => Self::Stylus,
            0x03 => Self::Finger,
            v => Self::Unknown(v),
        }
    }
}

// Whether the keys are out of reach; 000's `Unknown` is never made and is dropped.
#[derive(Clone, Copy, Debug, PartialEq, Eq)]
pub enum KeysHidden {
    Any,
    No,
    Yes,
    Soft,
}

// From the low two bits, so that what is left is 0x03.
impl From<u8> for KeysHidden {
    ghost from_gives = { λ n kind. kind ≡ keys_hidden_of n };

    fn from(value: u8) -> Self {
        match value & 0x03 {
            0x00 => Self::Any,
            0x01 => Self::No,
            0x02 => Self::Yes,
            _ => Self::Soft,
        }
    }
}

// The type of keyboard.
#[derive(Clone, Copy, Debug, PartialEq, Eq)]
pub enum Keyboard {
    Any,
    NoKeys,
    Qwerty,
    Key12,
    Unknown(u8),
}

// From the whole byte.
impl From<u8> for Keyboard {
    ghost from_gives = { λ n kind. kind ≡ keyboard_of n };

    fn from(value: u8) -> Self {
        match value {
            0x00 => Self::Any,
            0x01 => Self::NoKeys,
            0x02 => Self::Qwerty,
            0x03 => Self::Key12,
            v => Self::Unknown(v),
        }
    }
}

// Whether the means of navigation is out of reach.
#[derive(Clone, Copy, Debug, PartialEq, Eq)]
pub enum NavHidden {
    Any,
    No,
    Yes,
    Unknown(u8),
}

// From bits 2 and 3.
impl From<u8> for NavHidden {
    ghost from_gives = { λ n kind. kind ≡ nav_hidden_of n };

    fn from(value: u8) -> Self {
        match value & 0x0c {
            0x00 => Self::Any,
            0x04 => Self::No,
            0x08 => Self::Yes,
            v => Self::Unknown(v),
        }
    }
}

// The means of navigation.
#[derive(Clone, Copy, Debug, PartialEq, Eq)]
pub enum Navigation {
    Any,
    NoNav,
    Dpad,
    Trackball,
    Wheel,
    Unknown(u8),
}

// From the whole byte.
impl From<u8> for Navigation {
    ghost from_gives = { λ n kind. kind ≡ navigation_of n };

    fn from(value: u8) -> Self {
        match value {
            0x00 => Self::Any,
            0x01 => Self::NoNav,
            0x02 => Self::Dpad,
            0x03 => Self::Trackball,
            0x04 => Self::Wheel,
            v => Self::Unknown(v),
        }
    }
}
