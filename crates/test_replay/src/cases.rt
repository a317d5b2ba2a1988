// What the port answers to each kind of question on the flags and on the sixteen kinds, by its tag. The table of tests/rust
// has the same tags.
use crate::sheets;
use flags::ResTableConfigFlags;
use kinds::{
    Density, GrammaticalGender, Hdr, Keyboard, KeysHidden, Kind, LayoutDir, NavHidden, Navigation,
    Orientation, ScreenLong, ScreenRound, ScreenSize, Touchscreen, UIMode, UIModeNight,
    WideColorGamut,
};

// Which case a kind is, in 000's order of declaration, and the number that the case holds, 0 where it holds none.
#[derive(Clone, Copy)]
pub(crate) struct Case(u8, u16);

// Answers a question at the front of `out`, and gives the answer's length. A tag that is none of these has no answer.
pub(crate) fn answer(tag: u8, payload: &[u8], out: &mut [u8]) -> usize {
    match tag {
        0..=15 => kind(tag, test_frames::two(payload), out),
        16 => flag(test_frames::two(payload), out),
        17 => density_and_back(test_frames::two(payload), out),
        18 => sheets::answer(payload, out),
        _ => 0,
    }
}

// The bits of a row of the flags.
fn flag(row: u16, out: &mut [u8]) -> usize {
    let flag = ResTableConfigFlags::nth(row as usize);
    test_frames::put_four(flag.0, 0, out)
}

// A number made a density and back.
fn density_and_back(n: u16, out: &mut [u8]) -> usize {
    test_frames::put_two(u16::from(Density::from(n)), 0, out)
}

// The answer on the kind that a tag names, made of a number: its case, what the case holds, its words.
fn kind(tag: u8, n: u16, out: &mut [u8]) -> usize {
    let kind = kind_of(tag, n);
    let at = put_case(kind, 0, out);
    put_words(kind, at, out)
}

// Puts which case a kind is, and what the case holds.
pub(crate) fn put_case<K: Cased>(kind: K, at: usize, out: &mut [u8]) -> usize {
    let case = kind.case();
    let at = buffer::put_byte(case.0, at, out);
    test_frames::put_two(case.1, at, out)
}

// The kind that a tag names, made of a number.
fn kind_of(tag: u8, number: u16) -> Kind {
    let n = (number % 256) as u8;
    match tag {
        0 => Kind::GrammaticalGender(GrammaticalGender::from(n)),
        1 => Kind::LayoutDir(LayoutDir::from(n)),
        2 => Kind::ScreenSize(ScreenSize::from(n)),
        3 => Kind::ScreenLong(ScreenLong::from(n)),
        4 => Kind::ScreenRound(ScreenRound::from(n)),
        5 => Kind::WideColorGamut(WideColorGamut::from(n)),
        6 => Kind::Hdr(Hdr::from(n)),
        7 => Kind::Orientation(Orientation::from(n)),
        8 => Kind::UIMode(UIMode::from(n)),
        9 => Kind::UIModeNight(UIModeNight::from(n)),
        10 => Kind::Density(Density::from(number)),
        11 => Kind::Touchscreen(Touchscreen::from(n)),
        12 => Kind::KeysHidden(KeysHidden::from(n)),
        13 => Kind::Keyboard(Keyboard::from(n)),
        14 => Kind::NavHidden(NavHidden::from(n)),
        _ => Kind::Navigation(Navigation::from(n)),
    }
}

// Writes a kind's words from an offset on, and gives their end; a refusal, which no question should meet, leaves no answer.
fn put_words(kind: Kind, at: usize, out: &mut [u8]) -> usize {
    if out.len() < at {
        return 0;
    }
    match words_length::write_words(kind, &mut out[at..]) {
        Ok(n) => std::num::wrapping_add_usize(at, n),
        Err(_) => 0,
    }
}

// A kind, each of whose cases has a number.
pub(crate) trait Cased: Copy {
    // Which case it is.
    fn case(self) -> Case;
}

impl Cased for Kind {
    fn case(self) -> Case {
        match self {
            Kind::GrammaticalGender(kind) => kind.case(),
            Kind::LayoutDir(kind) => kind.case(),
            Kind::ScreenSize(kind) => kind.case(),
            Kind::ScreenLong(kind) => kind.case(),
            Kind::ScreenRound(kind) => kind.case(),
            Kind::WideColorGamut(kind) => kind.case(),
            Kind::Hdr(kind) => kind.case(),
            Kind::Orientation(kind) => kind.case(),
            Kind::UIMode(kind) => kind.case(),
            Kind::UIModeNight(kind) => kind.case(),
            Kind::Density(kind) => kind.case(),
            Kind::Touchscreen(kind) => kind.case(),
            Kind::KeysHidden(kind) => kind.case(),
            Kind::Keyboard(kind) => kind.case(),
            Kind::NavHidden(kind) => kind.case(),
            Kind::Navigation(kind) => kind.case(),
        }
    }
}

impl Cased for GrammaticalGender {
    fn case(self) -> Case {
        match self {
            GrammaticalGender::Neuter => Case(0, 0),
            GrammaticalGender::Feminine => Case(1, 0),
            GrammaticalGender::Masculine => Case(2, 0),
            GrammaticalGender::Any => Case(3, 0),
        }
    }
}

impl Cased for LayoutDir {
    fn case(self) -> Case {
        match self {
            LayoutDir::Ltr => Case(0, 0),
            LayoutDir::Rtl => Case(1, 0),
            LayoutDir::Any(v) => Case(2, v as u16),
        }
    }
}

impl Cased for ScreenSize {
    fn case(self) -> Case {
        match self {
            ScreenSize::Small => Case(0, 0),
            ScreenSize::Normal => Case(1, 0),
            ScreenSize::Large => Case(2, 0),
            ScreenSize::XLarge => Case(3, 0),
            ScreenSize::Any(v) => Case(4, v as u16),
        }
    }
}

impl Cased for ScreenLong {
    fn case(self) -> Case {
        match self {
            ScreenLong::No => Case(0, 0),
            ScreenLong::Yes => Case(1, 0),
            ScreenLong::Any(v) => Case(2, v as u16),
        }
    }
}

impl Cased for ScreenRound {
    fn case(self) -> Case {
        match self {
            ScreenRound::No => Case(0, 0),
            ScreenRound::Yes => Case(1, 0),
            ScreenRound::Any(v) => Case(2, v as u16),
        }
    }
}

impl Cased for WideColorGamut {
    fn case(self) -> Case {
        match self {
            WideColorGamut::No => Case(0, 0),
            WideColorGamut::Yes => Case(1, 0),
            WideColorGamut::Any(v) => Case(2, v as u16),
        }
    }
}

impl Cased for Hdr {
    fn case(self) -> Case {
        match self {
            Hdr::No => Case(0, 0),
            Hdr::Yes => Case(1, 0),
            Hdr::Any(v) => Case(2, v as u16),
        }
    }
}

impl Cased for Orientation {
    fn case(self) -> Case {
        match self {
            Orientation::Any => Case(0, 0),
            Orientation::Port => Case(1, 0),
            Orientation::Land => Case(2, 0),
            Orientation::Square => Case(3, 0),
            Orientation::Unknown(v) => Case(4, v as u16),
        }
    }
}

impl Cased for UIMode {
    fn case(self) -> Case {
        match self {
            UIMode::Any => Case(0, 0),
            UIMode::Normal => Case(1, 0),
            UIMode::Desk => Case(2, 0),
            UIMode::Car => Case(3, 0),
            UIMode::Television => Case(4, 0),
            UIMode::Appliance => Case(5, 0),
            UIMode::Watch => Case(6, 0),
            UIMode::VRHeadset => Case(7, 0),
            UIMode::Unknown(v) => Case(8, v as u16),
        }
    }
}

impl Cased for UIModeNight {
    fn case(self) -> Case {
        match self {
            UIModeNight::Any => Case(0, 0),
            UIModeNight::No => Case(1, 0),
            UIModeNight::Yes => Case(2, 0),
            UIModeNight::Unknown(v) => Case(3, v as u16),
        }
    }
}

impl Cased for Density {
    fn case(self) -> Case {
        match self {
            Density::Default => Case(0, 0),
            Density::Low => Case(1, 0),
            Density::Medium => Case(2, 0),
            Density::TV => Case(3, 0),
            Density::High => Case(4, 0),
            Density::XHigh => Case(5, 0),
            Density::XXHigh => Case(6, 0),
            Density::XXXHigh => Case(7, 0),
            Density::Any => Case(8, 0),
            Density::None => Case(9, 0),
            Density::Unknown(v) => Case(10, v),
        }
    }
}

impl Cased for Touchscreen {
    fn case(self) -> Case {
        match self {
            Touchscreen::Any => Case(0, 0),
            Touchscreen::NoTouch => Case(1, 0),
            Touchscreen::Stylus => Case(2, 0),
            Touchscreen::Finger => Case(3, 0),
            Touchscreen::Unknown(v) => Case(4, v as u16),
        }
    }
}

impl Cased for KeysHidden {
    fn case(self) -> Case {
        match self {
            KeysHidden::Any => Case(0, 0),
            KeysHidden::No => Case(1, 0),
            KeysHidden::Yes => Case(2, 0),
            KeysHidden::Soft => Case(3, 0),
        }
    }
}

impl Cased for Keyboard {
    fn case(self) -> Case {
        match self {
            Keyboard::Any => Case(0, 0),
            Keyboard::NoKeys => Case(1, 0),
            Keyboard::Qwerty => Case(2, 0),
            Keyboard::Key12 => Case(3, 0),
            Keyboard::Unknown(v) => Case(4, v as u16),
        }
    }
}

impl Cased for NavHidden {
    fn case(self) -> Case {
        match self {
            NavHidden::Any => Case(0, 0),
            NavHidden::No => Case(1, 0),
            NavHidden::Yes => Case(2, 0),
            NavHidden::Unknown(v) => Case(3, v as u16),
        }
    }
}

impl Cased for Navigation {
    fn case(self) -> Case {
        match self {
            Navigation::Any => Case(0, 0),
            Navigation::NoNav => Case(1, 0),
            Navigation::Dpad => Case(2, 0),
            Navigation::Trackball => Case(3, 0),
            Navigation::Wheel => Case(4, 0),
            Navigation::Unknown(v) => Case(5, v as u16),
        }
    }
}
