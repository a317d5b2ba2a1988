// The kinds that speak of the screen.
ghost use Rattle.std.specs.Prelude.{◌≡◌};
ghost use Rattle.kinds.specs.Screen.{layout_dir_of, screen_size_of, screen_long_of, screen_round_of, wide_color_gamut_of, hdr_of, orientation_of, density_of, density_number};

// Which way text and layout run.
#[derive(Clone, Copy, Debug, PartialEq, Eq)]
pub enum LayoutDir {
    Ltr,
    Rtl,
    Any(u8),
}

// From the top two bits.
impl From<u8> for LayoutDir {
    ghost from_gives = { λ n kind. kind ≡ layout_dir_of n };

    fn from(value: u8) -> Self {
        match value & 0xc0 {
            0x40 => Self::Ltr,
            0x80 => Self::Rtl,
            v => Self::Any(v),
        }
    }
}

// How large a screen is, in four steps.
#[derive(Clone, Copy, Debug, PartialEq, Eq)]
pub enum ScreenSize {
    Small,
    Normal,
    Large,
    XLarge,
    Any(u8),
}

// From the low four bits.
impl From<u8> for ScreenSize {
    ghost from_gives = { λ n kind. kind ≡ screen_size_of n };

    fn from(value: u8) -> Self {
        match value & 0x0f {
            0x01 => Self::Small,
            0x02 => Self::Normal,
            0x03 => Self::Large,
            0x04 => Self::XLarge,
            v => Self::Any(v),
        }
    }
}

// Whether a screen is longer than usual.
#[derive(Clone, Copy, Debug, PartialEq, Eq)]
pub enum ScreenLong {
    No,
    Yes,
    Any(u8),
}

// From bits 4 and 5.
impl From<u8> for ScreenLong {
    ghost from_gives = { λ n kind. kind ≡ screen_long_of n };

    fn from(value: u8) -> Self {
        match value & 0x30 {
            0x10 => Self::No,
            0x20 => Self::Yes,
            v => Self::Any(v),
        }
    }
}

// Whether a screen is round.
#[derive(Clone, Copy, Debug, PartialEq, Eq)]
pub enum ScreenRound {
    No,
    Yes,
    Any(u8),
}

// From the low two bits.
impl From<u8> for ScreenRound {
    ghost from_gives = { λ n kind. kind ≡ screen_round_of n };

    fn from(value: u8) -> Self {
        match value & 0x03 {
            0x01 => Self::No,
            0x02 => Self::Yes,
            v => Self::Any(v),
        }
    }
}

// Whether a screen shows a wide range of colours.
#[derive(Clone, Copy, Debug, PartialEq, Eq)]
pub enum WideColorGamut {
    No,
    Yes,
    Any(u8),
}

// From the low two bits.
impl From<u8> for WideColorGamut {
    ghost from_gives = { λ n kind. kind ≡ wide_color_gamut_of n };

    fn from(value: u8) -> Self {
        match value & 0x03 {
            0x01 => Self::No,
            0x02 => Self::Yes,
            v => Self::Any(v),
        }
    }
}

// Whether a screen has a high dynamic range.
#[derive(Clone, Copy, Debug, PartialEq, Eq)]
pub enum Hdr {
    No,
    Yes,
    Any(u8),
}

// From bits 2 and 3.
impl From<u8> for Hdr {
    ghost from_gives = { λ n kind. kind ≡ hdr_of n };

    fn from(value: u8) -> Self {
        match value & 0x0c {
            0x04 => Self::No,
            0x08 => Self::Yes,
            v => Self::Any(v),
        }
    }
}

// Which way a screen is held.
#[derive(Clone, Copy, Debug, PartialEq, Eq)]
pub enum Orientation {
    Any,
    Port,
    Land,
    Square,
    Unknown(u8),
}

// From the whole byte.
impl From<u8> for Orientation {
    ghost from_gives = { λ n kind. kind ≡ orientation_of n };

    fn from(value: u8) -> Self {
        match value {
            0x00 => Self::Any,
            0x01 => Self::Port,
            0x02 => Self::Land,
            0x03 => Self::Square,
            v => Self::Unknown(v),
        }
    }
}

// Dots per inch: seven by name, any other as it is; and three that are no count, of which Default alone has no words.
#[derive(Clone, Copy, Debug, PartialEq, Eq)]
pub enum Density {
    Default,
    Low,
    Medium,
    TV,
    High,
    XHigh,
    XXHigh,
    XXXHigh,
    Any,
    None,
    Unknown(u16),
}

// From a record's number.
impl From<u16> for Density {
    ghost from_gives = { λ n kind. kind ≡ density_of n };

    fn from(value: u16) -> Self {
        match value {
            0 => Self::Default,
            120 => Self::Low,
            160 => Self::Medium,
            213 => Self::TV,
            240 => Self::High,
            320 => Self::XHigh,
            480 => Self::XXHigh,
            640 => Self::XXXHigh,
            0xfffe => Self::Any,
            0xffff => Self::None,
            v => Self::Unknown(v),
        }
    }
}

// Back to a record's number.
impl From<Density> for u16 {
    ghost from_gives = { λ density n. n ≡ density_number density };

    fn from(density: Density) -> u16 {
        match density {
            Density::Default => 0,
            Density::Low => 120,
            Density::Medium => 160,
            Density::TV => 213,
            Density::High => 240,
            Density::XHigh => 320,
            Density::XXHigh => 480,
            Density::XXXHigh => 640,
            Density::Any => 0xfffe,
            Density::None => 0xffff,
            Density::Unknown(v) => v,
        }
    }
}
