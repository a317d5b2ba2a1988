// How many bytes the words of each kind have. They are counted here and put in another crate; the contracts hold the two together.
ghost use Rattle.std.specs.Prelude.{◌≤◌, ◌≡◌, ◌++◌, length};
ghost use Rattle.buffer.specs.Ascii.{ascii};
ghost use Rattle.buffer.specs.Decimal.{decimal};

use buffer::decimal_length;
use kinds::{
    Density, GrammaticalGender, Hdr, Keyboard, KeysHidden, Kind, LayoutDir, NavHidden, Navigation,
    Orientation, ScreenLong, ScreenRound, ScreenSize, Touchscreen, UIMode, UIModeNight,
    WideColorGamut,
};
use words::Words;

// A kind whose words have a length that is counted.
pub(crate) trait WordsLength: Words {
    // How many bytes the words have.
    fn words_length(self) -> usize
        ensures { result ≡ length (Self.words self) };
}

// How many bytes fixed words and then n in decimal have.
fn label_length(front: &[u8], n: u64) -> usize
    requires { length front.now ≤ 20 }
    ensures { result ≡ length (front.now ++ decimal n) }
{
    front.len() + decimal_length(n)
}

// How many bytes a density in dpi has.
fn dpi_length(n: u64) -> usize
    ensures { result ≡ length (decimal n ++ ascii "dpi") }
{
    decimal_length(n) + 3
}

impl WordsLength for GrammaticalGender {
    fn words_length(self) -> usize {
        match self {
            GrammaticalGender::Neuter => 6,
            GrammaticalGender::Feminine => 8,
            GrammaticalGender::Masculine => 9,
            GrammaticalGender::Any => 0,
        }
    }
}

impl WordsLength for LayoutDir {
    fn words_length(self) -> usize {
        match self {
            LayoutDir::Ltr => 5,
            LayoutDir::Rtl => 5,
            LayoutDir::Any(v) => label_length(b"layoutDir=", v as u64),
        }
    }
}

impl WordsLength for ScreenSize {
    fn words_length(self) -> usize {
        match self {
            ScreenSize::Small => 5,
            ScreenSize::Normal => 6,
            ScreenSize::Large => 5,
            ScreenSize::XLarge => 6,
            ScreenSize::Any(v) => label_length(b"screenLayoutSize=", v as u64),
        }
    }
}

impl WordsLength for ScreenLong {
    fn words_length(self) -> usize {
        match self {
            ScreenLong::No => 7,
            ScreenLong::Yes => 4,
            ScreenLong::Any(v) => label_length(b"screenLayoutLong=", v as u64),
        }
    }
}

impl WordsLength for ScreenRound {
    fn words_length(self) -> usize {
        match self {
            ScreenRound::No => 8,
            ScreenRound::Yes => 5,
            ScreenRound::Any(v) => label_length(b"screenRound=", v as u64),
        }
    }
}

impl WordsLength for WideColorGamut {
    fn words_length(self) -> usize {
        match self {
            WideColorGamut::No => 8,
            WideColorGamut::Yes => 6,
            WideColorGamut::Any(v) => label_length(b"wideColorGamut=", v as u64),
        }
    }
}

impl WordsLength for Hdr {
    fn words_length(self) -> usize {
        match self {
            Hdr::No => 5,
            Hdr::Yes => 6,
            Hdr::Any(v) => label_length(b"hdr=", v as u64),
        }
    }
}

impl WordsLength for Orientation {
    fn words_length(self) -> usize {
        match self {
            Orientation::Any => 0,
            Orientation::Port => 4,
            Orientation::Land => 4,
            Orientation::Square => 6,
            Orientation::Unknown(v) => label_length(b"orientation=", v as u64),
        }
    }
}

impl WordsLength for UIMode {
    fn words_length(self) -> usize {
        match self {
            UIMode::Any => 0,
            UIMode::Normal => 0,
            UIMode::Desk => 4,
            UIMode::Car => 3,
            UIMode::Television => 10,
            UIMode::Appliance => 9,
            UIMode::Watch => 5,
            UIMode::VRHeadset => 9,
            UIMode::Unknown(v) => label_length(b"uiModeType=", v as u64),
        }
    }
}

impl WordsLength for UIModeNight {
    fn words_length(self) -> usize {
        match self {
            UIModeNight::Any => 0,
            UIModeNight::No => 8,
            UIModeNight::Yes => 5,
            UIModeNight::Unknown(v) => label_length(b"uiModeNight=", v as u64),
        }
    }
}

impl WordsLength for Density {
    fn words_length(self) -> usize {
        match self {
            Density::Default => 0,
            Density::Low => 4,
            Density::Medium => 4,
            Density::TV => 5,
            Density::High => 4,
            Density::XHigh => 5,
            Density::XXHigh => 6,
            Density::XXXHigh => 7,
            Density::Any => 6,
            Density::None => 5,
            Density::Unknown(v) => dpi_length(v as u64),
        }
    }
}

impl WordsLength for Touchscreen {
    fn words_length(self) -> usize {
        match self {
            Touchscreen::Any => 0,
            Touchscreen::NoTouch => 7,
            Touchscreen::Stylus => 6,
            Touchscreen::Finger => 6,
            Touchscreen::Unknown(v) => label_length(b"touchscreen=", v as u64),
        }
    }
}

impl WordsLength for KeysHidden {
    fn words_length(self) -> usize {
        match self {
            KeysHidden::Any => 0,
            KeysHidden::No => 11,
            KeysHidden::Yes => 10,
            KeysHidden::Soft => 8,
        }
    }
}

impl WordsLength for Keyboard {
    fn words_length(self) -> usize {
        match self {
            Keyboard::Any => 0,
            Keyboard::NoKeys => 6,
            Keyboard::Qwerty => 6,
            Keyboard::Key12 => 5,
            Keyboard::Unknown(v) => label_length(b"keyboard=", v as u64),
        }
    }
}

impl WordsLength for NavHidden {
    fn words_length(self) -> usize {
        match self {
            NavHidden::Any => 0,
            NavHidden::No => 10,
            NavHidden::Yes => 9,
            NavHidden::Unknown(v) => label_length(b"inputFlagsNavHidden=", v as u64),
        }
    }
}

impl WordsLength for Navigation {
    fn words_length(self) -> usize {
        match self {
            Navigation::Any => 0,
            Navigation::NoNav => 5,
            Navigation::Dpad => 4,
            Navigation::Trackball => 9,
            Navigation::Wheel => 5,
            Navigation::Unknown(v) => label_length(b"navigation=", v as u64),
        }
    }
}

impl WordsLength for Kind {
    fn words_length(self) -> usize {
        match self {
            Kind::GrammaticalGender(kind) => kind.words_length(),
            Kind::LayoutDir(kind) => kind.words_length(),
            Kind::ScreenSize(kind) => kind.words_length(),
            Kind::ScreenLong(kind) => kind.words_length(),
            Kind::ScreenRound(kind) => kind.words_length(),
            Kind::WideColorGamut(kind) => kind.words_length(),
            Kind::Hdr(kind) => kind.words_length(),
            Kind::Orientation(kind) => kind.words_length(),
            Kind::UIMode(kind) => kind.words_length(),
            Kind::UIModeNight(kind) => kind.words_length(),
            Kind::Density(kind) => kind.words_length(),
            Kind::Touchscreen(kind) => kind.words_length(),
            Kind::KeysHidden(kind) => kind.words_length(),
            Kind::Keyboard(kind) => kind.words_length(),
            Kind::NavHidden(kind) => kind.words_length(),
            Kind::Navigation(kind) => kind.words_length(),
        }
    }
}
