// The words of the kinds that speak of the use.
ghost use Rattle.words.specs.Mode.{grammatical_gender_words, ui_mode_words, ui_mode_night_words};

use crate::Words;
use buffer::{put, put_label};
use kinds::{GrammaticalGender, UIMode, UIModeNight};

// The words of a GrammaticalGender.
impl Words for GrammaticalGender {
    ghost words = { grammatical_gender_words };

    fn put_words(self, at: usize, out: &mut [u8]) -> usize {
        match self {
            GrammaticalGender::Neuter => put(b"neuter", at, out),
            GrammaticalGender::Feminine => put(b"feminine", at, out),
            GrammaticalGender::Masculine => put(b"masculine", at, out),
            GrammaticalGender::Any => at,
        }
    }
}

// The words of a UIMode.
impl Words for UIMode {
    ghost words = { ui_mode_words };

    fn put_words(self, at: usize, out: &mut [u8]) -> usize {
        match self {
            UIMode::Any => at,
            UIMode::Normal => at,
            UIMode::Desk => put(b"desk", at, out),
            UIMode::Car => put(b"car", at, out),
            UIMode::Television => put(b"television", at, out),
            UIMode::Appliance => put(b"appliance", at, out),
            UIMode::Watch => put(b"watch", at, out),
            UIMode::VRHeadset => put(b"vrheadset", at, out),
            UIMode::Unknown(v) => put_label(b"uiModeType=", v as u64, at, out),
        }
    }
}

// The words of a UIModeNight.
impl Words for UIModeNight {
    ghost words = { ui_mode_night_words };

    fn put_words(self, at: usize, out: &mut [u8]) -> usize {
        match self {
            UIModeNight::Any => at,
            UIModeNight::No => put(b"notnight", at, out),
            UIModeNight::Yes => put(b"night", at, out),
            UIModeNight::Unknown(v) => put_label(b"uiModeNight=", v as u64, at, out),
        }
    }
}
