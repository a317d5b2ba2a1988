// The words of the kinds that speak of what a screen shows.
ghost use Rattle.words.specs.Screen.{wide_color_gamut_words, hdr_words, orientation_words, density_words};

use crate::Words;
use buffer::{put, put_between, put_label};
use kinds::{Density, Hdr, Orientation, WideColorGamut};

// The words of a WideColorGamut.
impl Words for WideColorGamut {
    ghost words = { wide_color_gamut_words };

    fn put_words(self, at: usize, out: &mut [u8]) -> usize {
        match self {
            WideColorGamut::No => put(b"nowidecg", at, out),
            WideColorGamut::Yes => put(b"widecg", at, out),
            WideColorGamut::Any(v) => put_label(b"wideColorGamut=", v as u64, at, out),
        }
    }
}

// The words of an Hdr.
impl Words for Hdr {
    ghost words = { hdr_words };

    fn put_words(self, at: usize, out: &mut [u8]) -> usize {
        match self {
            Hdr::No => put(b"lowdr", at, out),
            Hdr::Yes => put(b"highdr", at, out),
            Hdr::Any(v) => put_label(b"hdr=", v as u64, at, out),
        }
    }
}

// The words of an Orientation.
impl Words for Orientation {
    ghost words = { orientation_words };

    fn put_words(self, at: usize, out: &mut [u8]) -> usize {
        match self {
            Orientation::Any => at,
            Orientation::Port => put(b"port", at, out),
            Orientation::Land => put(b"land", at, out),
            Orientation::Square => put(b"square", at, out),
            Orientation::Unknown(v) => put_label(b"orientation=", v as u64, at, out),
        }
    }
}

// The words of a Density.
impl Words for Density {
    ghost words = { density_words };

    fn put_words(self, at: usize, out: &mut [u8]) -> usize {
        match self {
            Density::Default => at,
            Density::Low => put(b"ldpi", at, out),
            Density::Medium => put(b"mdpi", at, out),
            Density::TV => put(b"tvdpi", at, out),
            Density::High => put(b"hdpi", at, out),
            Density::XHigh => put(b"xhdpi", at, out),
            Density::XXHigh => put(b"xxhdpi", at, out),
            Density::XXXHigh => put(b"xxxhdpi", at, out),
            Density::Any => put(b"anydpi", at, out),
            Density::None => put(b"nodpi", at, out),
            Density::Unknown(v) => put_between(b"", v as u64, b"dpi", at, out),
        }
    }
}
