// `words KIND NUMBER`: the words of a kind as 000 displays them, from the number that a record holds.
use crate::{given, say};
use compare::same;
use kinds::{
    Density, GrammaticalGender, Hdr, Keyboard, KeysHidden, Kind, LayoutDir, NavHidden, Navigation,
    Orientation, ScreenLong, ScreenRound, ScreenSize, Touchscreen, UIMode, UIModeNight,
    WideColorGamut,
};
use numbers::number_in;
use std::io;
use std::rt::Env;
use words_length::write_words;

// The place of a word in a list with a space between each two, counted from 0.
fn place_in(list: &[u8], word: &[u8]) -> Option<usize> {
    list.split(|b| *b == b' ')
        .position(|listed| same(listed, word))
}

// The greatest number of the kind at a place of the list: a record holds a density in two bytes, and each other kind in one.
fn greatest(place: usize) -> u16 {
    if place == 10 { 65535 } else { 255 }
}

// The kind at a place of the list, made of a number.
fn kind_of(place: usize, number: u16) -> Kind {
    let n = (number % 256) as u8;
    match place {
        0 => Kind::GrammaticalGender(GrammaticalGender::from(n)),
        1 => Kind::LayoutDir(LayoutDir::from(n)),
        2 => Kind::ScreenSize(ScreenSize::from(n)),
        3 => Kind::ScreenLong(ScreenLong::from(n)),
        4 => Kind::ScreenRound(ScreenRound::from(n)),
        5 => Kind::WideColorGamut(WideColorGamut::from(n)),
        6 => Kind::Hdr(Hdr::from(n)),
        7 => Kind::Orientation(Orientation::from(n)),
        8 => Kind::UIMode(UIMode::from(n)),
        9 => Kind::UIModeNight(UIModeNight::from(n)),
        10 => Kind::Density(Density::from(number)),
        11 => Kind::Touchscreen(Touchscreen::from(n)),
        12 => Kind::KeysHidden(KeysHidden::from(n)),
        13 => Kind::Keyboard(Keyboard::from(n)),
        14 => Kind::NavHidden(NavHidden::from(n)),
        _ => Kind::Navigation(Navigation::from(n)),
    }
}

// Says that bytes are none of the kinds.
fn no_kind(rt: &impl Print, given: &[u8], list: &[u8]) -> io::Result<()> {
    say::misused(rt)?;
    say::quoted(rt, given)?;
    say::plainly(rt, b" is no kind; the kinds are ")?;
    say::plainly(rt, list)?;
    say::plainly(rt, b"\n")
}

// Says that bytes are no number up to the greatest.
fn no_number(rt: &impl Print, given: &[u8], greatest: u16) -> io::Result<()> {
    say::misused(rt)?;
    say::quoted(rt, given)?;
    say::plainly(rt, b" is no number from 0 to ")?;
    say::number(rt, greatest as usize)?;
    say::plainly(rt, b" without leading zeros\n")
}

// Answers to the number of the kind at a place of the list.
fn of_number(rt: &impl Print, place: usize, given: &[u8]) -> io::Result<()> {
    let greatest = greatest(place);
    match number_in(given) {
        Some(number) if number <= greatest => {
            let mut out = [0u8; 25];
            let answer = write_words(kind_of(place, number), &mut out);
            say::written(rt, answer, &out, b"\n")
        }
        _ => no_number(rt, given, greatest),
    }
}

// Takes the kind and the number from the arguments and answers to them.
pub(crate) fn answer(rt: &(impl Print + Env), room: &mut [u8]) -> io::Result<()> {
    if !given::ends_at(rt, 3) {
        say::misused(rt)?;
        return say::plainly(rt, b"words takes one KIND and one NUMBER\n");
    }
    let list =
        b"GrammaticalGender LayoutDir ScreenSize ScreenLong ScreenRound WideColorGamut Hdr Orientation UIMode UIModeNight Density Touchscreen KeysHidden Keyboard NavHidden Navigation";
    let n = given::put(rt, 2, room);
    let Some(place) = place_in(list, &room[..n]) else {
        return no_kind(rt, &room[..n], list);
    };
    let n = given::put(rt, 3, room);
    of_number(rt, place, &room[..n])
}
