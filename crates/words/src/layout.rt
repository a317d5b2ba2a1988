// The words of the kinds that speak of how a screen is laid out.
ghost use Rattle.words.specs.Layout.{layout_dir_words, screen_size_words, screen_long_words, screen_round_words};

use crate::Words;
use buffer::{put, put_label};
use kinds::{LayoutDir, ScreenLong, ScreenRound, ScreenSize};

// The words of a LayoutDir.
impl Words for LayoutDir {
    ghost words = { layout_dir_words };

    fn put_words(self, at: usize, out: &mut [u8]) -> usize {
        match self {
            LayoutDir::Ltr => put(b"ldltr", at, out),
            LayoutDir::Rtl => put(b"ldrtl", at, out),
            LayoutDir::Any(v) => put_label(b"layoutDir=", v as u64, at, out),
        }
    }
}

// The words of a ScreenSize.
impl Words for ScreenSize {
    ghost words = { screen_size_words };

    fn put_words(self, at: usize, out: &mut [u8]) -> usize {
        match self {
            ScreenSize::Small => put(b"small", at, out),
            ScreenSize::Normal => put(b"normal", at, out),
            ScreenSize::Large => put(b"large", at, out),
            ScreenSize::XLarge => put(b"xlarge", at, out),
            ScreenSize::Any(v) => put_label(b"screenLayoutSize=", v as u64, at, out),
        }
    }
}

// The words of a ScreenLong.
impl Words for ScreenLong {
    ghost words = { screen_long_words };

    fn put_words(self, at: usize, out: &mut [u8]) -> usize {
        match self {
            ScreenLong::No => put(b"notlong", at, out),
            ScreenLong::Yes => put(b"long", at, out),
            ScreenLong::Any(v) => put_label(b"screenLayoutLong=", v as u64, at, out),
        }
    }
}

// The words of a ScreenRound.
impl Words for ScreenRound {
    ghost words = { screen_round_words };

    fn put_words(self, at: usize, out: &mut [u8]) -> usize {
        match self {
            ScreenRound::No => put(b"notround", at, out),
            ScreenRound::Yes => put(b"round", at, out),
            ScreenRound::Any(v) => put_label(b"screenRound=", v as u64, at, out),
        }
    }
}
