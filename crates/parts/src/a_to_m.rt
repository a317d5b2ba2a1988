// The parts that begin with one of the letters 'a' to 'm'.
ghost use Rattle.std.specs.Prelude.{◌<◌, SomeIff};
ghost use Rattle.parts.specs.Beginning.{found_by};

use crate::slots::{
    DENSITY, GENDER, HDR, HEIGHT, KEYS_HIDDEN, LAYOUT_DIR, MCC, MNC, NAVIGATION, ORIENTATION,
    SCREEN_LONG, SCREEN_SIZE, TOUCHSCREEN, UI_TYPE,
};
use crate::{Found, in_slot};
use compare::same;
use forms::number_value;

// The parts that begin with 'a'.
pub(crate) fn part_a(s: &[u8]) -> Option<Found>
    ensures { SomeIff result (0 < (found_by 97 s.now).value) (found_by 97 s.now) }
{
    match s {
        _ if same(s, b"appliance") => in_slot(UI_TYPE, 5),
        _ if same(s, b"anydpi") => in_slot(DENSITY, 65534),
        _ => None,
    }
}

// The parts that begin with 'c'.
pub(crate) fn part_c(s: &[u8]) -> Option<Found>
    ensures { SomeIff result (0 < (found_by 99 s.now).value) (found_by 99 s.now) }
{
    match s {
        _ if same(s, b"car") => in_slot(UI_TYPE, 3),
        _ => None,
    }
}

// The parts that begin with 'd'.
pub(crate) fn part_d(s: &[u8]) -> Option<Found>
    ensures { SomeIff result (0 < (found_by 100 s.now).value) (found_by 100 s.now) }
{
    match s {
        _ if same(s, b"desk") => in_slot(UI_TYPE, 2),
        _ if same(s, b"dpad") => in_slot(NAVIGATION, 2),
        _ => None,
    }
}

// The parts that begin with 'f'.
pub(crate) fn part_f(s: &[u8]) -> Option<Found>
    ensures { SomeIff result (0 < (found_by 102 s.now).value) (found_by 102 s.now) }
{
    match s {
        _ if same(s, b"feminine") => in_slot(GENDER, 2),
        _ if same(s, b"finger") => in_slot(TOUCHSCREEN, 3),
        _ => None,
    }
}

// The parts that begin with 'h'.
pub(crate) fn part_h(s: &[u8]) -> Option<Found>
    ensures { SomeIff result (0 < (found_by 104 s.now).value) (found_by 104 s.now) }
{
    if let Some(height) = number_value(s, b"h", b"dp") {
        return in_slot(HEIGHT, height);
    }
    match s {
        _ if same(s, b"highdr") => in_slot(HDR, 8),
        _ if same(s, b"hdpi") => in_slot(DENSITY, 240),
        _ => None,
    }
}

// The parts that begin with 'k'.
pub(crate) fn part_k(s: &[u8]) -> Option<Found>
    ensures { SomeIff result (0 < (found_by 107 s.now).value) (found_by 107 s.now) }
{
    match s {
        _ if same(s, b"keysexposed") => in_slot(KEYS_HIDDEN, 1),
        _ if same(s, b"keyshidden") => in_slot(KEYS_HIDDEN, 2),
        _ if same(s, b"keyssoft") => in_slot(KEYS_HIDDEN, 3),
        _ => None,
    }
}

// The parts that begin with 'l'.
pub(crate) fn part_l(s: &[u8]) -> Option<Found>
    ensures { SomeIff result (0 < (found_by 108 s.now).value) (found_by 108 s.now) }
{
    match s {
        _ if same(s, b"ldltr") => in_slot(LAYOUT_DIR, 64),
        _ if same(s, b"ldrtl") => in_slot(LAYOUT_DIR, 128),
        _ if same(s, b"large") => in_slot(SCREEN_SIZE, 3),
        _ if same(s, b"long") => in_slot(SCREEN_LONG, 32),
        _ if same(s, b"lowdr") => in_slot(HDR, 4),
        _ if same(s, b"land") => in_slot(ORIENTATION, 2),
        _ if same(s, b"ldpi") => in_slot(DENSITY, 120),
        _ => None,
    }
}

// The parts that begin with 'm'.
pub(crate) fn part_m(s: &[u8]) -> Option<Found>
    ensures { SomeIff result (0 < (found_by 109 s.now).value) (found_by 109 s.now) }
{
    if let Some(mcc) = number_value(s, b"mcc", b"") {
        return in_slot(MCC, mcc);
    }
    if let Some(mnc) = number_value(s, b"mnc", b"") {
        return in_slot(MNC, mnc);
    }
    match s {
        _ if same(s, b"masculine") => in_slot(GENDER, 3),
        _ if same(s, b"mdpi") => in_slot(DENSITY, 160),
        _ => None,
    }
}
