// Densities, sides and keyboards of twelve keys.
ghost use Rattle.std.specs.Prelude.{◌<◌, SomeIff};
ghost use Rattle.parts.specs.Beginning.{found_by};

use crate::slots::{DENSITY, KEYBOARD, SIDES};
use crate::{Found, in_slot};
use compare::same;
use forms::{density_value, sides_value};

// The parts that begin with a digit.
pub(crate) fn part_digit(s: &[u8]) -> Option<Found>
    ensures { SomeIff result (0 < (found_by 48 s.now).value) (found_by 48 s.now) }
{
    if let Some(density) = density_value(s) {
        return in_slot(DENSITY, density);
    }
    if let Some(sides) = sides_value(s) {
        return in_slot(SIDES, sides);
    }
    match s {
        _ if same(s, b"12key") => in_slot(KEYBOARD, 3),
        _ => None,
    }
}
