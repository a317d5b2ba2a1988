// The words of the kinds that speak of touch, keys and navigation.
ghost use Rattle.words.specs.Input.{touchscreen_words, keys_hidden_words, keyboard_words, nav_hidden_words, navigation_words};

use crate::Words;
use buffer::{put, put_label};
use kinds::{Keyboard, KeysHidden, NavHidden, Navigation, Touchscreen};

// The words of a Touchscreen.
impl Words for Touchscreen {
    ghost words = { touchscreen_words };

    fn put_words(self, at: usize, out: &mut [u8]) -> usize {
        match self {
            Touchscreen::Any => at,
            Touchscreen::NoTouch => put(b"notouch", at, out),
            Touchscreen::Stylus => put(b"stylus", at, out),
            Touchscreen::Finger => put(b"finger", at, out),
            Touchscreen::Unknown(v) => put_label(b"touchscreen=", v as u64, at, out),
        }
    }
}

// The words of a KeysHidden.
impl Words for KeysHidden {
    ghost words = { keys_hidden_words };

    fn put_words(self, at: usize, out: &mut [u8]) -> usize {
        match self {
            KeysHidden::Any => at,
            KeysHidden::No => put(b"keysexposed", at, out),
            KeysHidden::Yes => put(b"keyshidden", at, out),
            KeysHidden::Soft => put(b"keyssoft", at, out),
        }
    }
}

// The words of a Keyboard.
impl Words for Keyboard {
    ghost words = { keyboard_words };

    fn put_words(self, at: usize, out: &mut [u8]) -> usize {
        match self {
            Keyboard::Any => at,
            Keyboard::NoKeys => put(b"nokeys", at, out),
            Keyboard::Qwerty => put(b"qwerty", at, out),
            Keyboard::Key12 => put(b"12key", at, out),
            Keyboard::Unknown(v) => put_label(b"keyboard=", v as u64, at, out),
        }
    }
}

// The words of a NavHidden.
impl Words for NavHidden {
    ghost words = { nav_hidden_words };

    fn put_words(self, at: usize, out: &mut [u8]) -> usize {
        match self {
            NavHidden::Any => at,
            NavHidden::No => put(b"navexposed", at, out),
            NavHidden::Yes => put(b"navhidden", at, out),
            NavHidden::Unknown(v) => put_label(b"inputFlagsNavHidden=", v as u64, at, out),
        }
    }
}

// The words of a Navigation.
impl Words for Navigation {
    ghost words = { navigation_words };

    fn put_words(self, at: usize, out: &mut [u8]) -> usize {
        match self {
            Navigation::Any => at,
            Navigation::NoNav => put(b"nonav", at, out),
            Navigation::Dpad => put(b"dpad", at, out),
            Navigation::Trackball => put(b"trackball", at, out),
            Navigation::Wheel => put(b"wheel", at, out),
            Navigation::Unknown(v) => put_label(b"navigation=", v as u64, at, out),
        }
    }
}
