// The parts that begin with one of the letters 'n' to 'x'.
ghost use Rattle.std.specs.Prelude.{◌<◌, SomeIff};
ghost use Rattle.parts.specs.Beginning.{found_by};

use crate::slots::{
    DENSITY, GAMUT, GENDER, KEYBOARD, NAV_HIDDEN, NAVIGATION, NIGHT, ORIENTATION, REGION,
    SCREEN_LONG, SCREEN_ROUND, SCREEN_SIZE, SMALLEST_WIDTH, TOUCHSCREEN, UI_TYPE, VERSION, WIDTH,
};
use crate::{Found, in_slot};
use compare::same;
use forms::{minor_value, number_value};
use letters::region_value;

// The parts that begin with 'n'.
pub(crate) fn part_n(s: &[u8]) -> Option<Found>
    ensures { SomeIff result (0 < (found_by 110 s.now).value) (found_by 110 s.now) }
{
    match s {
        _ if same(s, b"neuter") => in_slot(GENDER, 1),
        _ if same(s, b"normal") => in_slot(SCREEN_SIZE, 2),
        _ if same(s, b"notlong") => in_slot(SCREEN_LONG, 16),
        _ if same(s, b"notround") => in_slot(SCREEN_ROUND, 1),
        _ if same(s, b"nowidecg") => in_slot(GAMUT, 1),
        _ if same(s, b"notnight") => in_slot(NIGHT, 16),
        _ if same(s, b"night") => in_slot(NIGHT, 32),
        _ if same(s, b"nodpi") => in_slot(DENSITY, 65535),
        _ if same(s, b"notouch") => in_slot(TOUCHSCREEN, 1),
        _ if same(s, b"nokeys") => in_slot(KEYBOARD, 1),
        _ if same(s, b"navexposed") => in_slot(NAV_HIDDEN, 4),
        _ if same(s, b"navhidden") => in_slot(NAV_HIDDEN, 8),
        _ if same(s, b"nonav") => in_slot(NAVIGATION, 1),
        _ => None,
    }
}

// The parts that begin with 'p'.
pub(crate) fn part_p(s: &[u8]) -> Option<Found>
    ensures { SomeIff result (0 < (found_by 112 s.now).value) (found_by 112 s.now) }
{
    match s {
        _ if same(s, b"port") => in_slot(ORIENTATION, 1),
        _ => None,
    }
}

// The parts that begin with 'q'.
pub(crate) fn part_q(s: &[u8]) -> Option<Found>
    ensures { SomeIff result (0 < (found_by 113 s.now).value) (found_by 113 s.now) }
{
    match s {
        _ if same(s, b"qwerty") => in_slot(KEYBOARD, 2),
        _ => None,
    }
}

// The parts that begin with 'r'.
pub(crate) fn part_r(s: &[u8]) -> Option<Found>
    ensures { SomeIff result (0 < (found_by 114 s.now).value) (found_by 114 s.now) }
{
    if let Some(region) = region_value(s) {
        return in_slot(REGION, region);
    }
    match s {
        _ if same(s, b"round") => in_slot(SCREEN_ROUND, 2),
        _ => None,
    }
}

// The parts that begin with 's'.
pub(crate) fn part_s(s: &[u8]) -> Option<Found>
    ensures { SomeIff result (0 < (found_by 115 s.now).value) (found_by 115 s.now) }
{
    if let Some(smallest) = number_value(s, b"sw", b"dp") {
        return in_slot(SMALLEST_WIDTH, smallest);
    }
    match s {
        _ if same(s, b"small") => in_slot(SCREEN_SIZE, 1),
        _ if same(s, b"square") => in_slot(ORIENTATION, 3),
        _ if same(s, b"stylus") => in_slot(TOUCHSCREEN, 2),
        _ => None,
    }
}

// The parts that begin with 't'.
pub(crate) fn part_t(s: &[u8]) -> Option<Found>
    ensures { SomeIff result (0 < (found_by 116 s.now).value) (found_by 116 s.now) }
{
    match s {
        _ if same(s, b"television") => in_slot(UI_TYPE, 4),
        _ if same(s, b"tvdpi") => in_slot(DENSITY, 213),
        _ if same(s, b"trackball") => in_slot(NAVIGATION, 3),
        _ => None,
    }
}

// The parts that begin with 'v'.
pub(crate) fn part_v(s: &[u8]) -> Option<Found>
    ensures { SomeIff result (0 < (found_by 118 s.now).value) (found_by 118 s.now) }
{
    if let Some(version) = number_value(s, b"v", b"") {
        return in_slot(VERSION, version);
    }
    if let Some(minor) = minor_value(s) {
        return in_slot(VERSION, minor);
    }
    match s {
        _ if same(s, b"vrheadset") => in_slot(UI_TYPE, 7),
        _ => None,
    }
}

// The parts that begin with 'w'.
pub(crate) fn part_w(s: &[u8]) -> Option<Found>
    ensures { SomeIff result (0 < (found_by 119 s.now).value) (found_by 119 s.now) }
{
    if let Some(width) = number_value(s, b"w", b"dp") {
        return in_slot(WIDTH, width);
    }
    match s {
        _ if same(s, b"widecg") => in_slot(GAMUT, 2),
        _ if same(s, b"watch") => in_slot(UI_TYPE, 6),
        _ if same(s, b"wheel") => in_slot(NAVIGATION, 4),
        _ => None,
    }
}

// The parts that begin with 'x'.
pub(crate) fn part_x(s: &[u8]) -> Option<Found>
    ensures { SomeIff result (0 < (found_by 120 s.now).value) (found_by 120 s.now) }
{
    match s {
        _ if same(s, b"xlarge") => in_slot(SCREEN_SIZE, 4),
        _ if same(s, b"xhdpi") => in_slot(DENSITY, 320),
        _ if same(s, b"xxhdpi") => in_slot(DENSITY, 480),
        _ if same(s, b"xxxhdpi") => in_slot(DENSITY, 640),
        _ => None,
    }
}
