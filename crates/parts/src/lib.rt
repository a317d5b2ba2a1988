#![tactic(auto, unfolding(crate::specs::Beginning::beginning, crate::specs::Recognised::first_of, crate::specs::Recognised::value_in, grammar::specs::Rows::rows, grammar::specs::Rows::kind_rows, grammar::specs::Rows::word_rows, grammar::specs::Rows::word_row))]
// What some bytes are as a part of a directory name: a value in a slot.
mod a_to_m;
mod digits;
mod n_to_x;
pub mod slots;

ghost use Rattle.std.specs.Prelude.{◌≡◌, ◌<◌, Some, SomeIff};
ghost use Rattle.parts.specs.Beginning.{class_of, found_by};
ghost use Rattle.parts.specs.Recognised.{in_slot, recognised};

use a_to_m::{part_a, part_c, part_d, part_f, part_h, part_k, part_l, part_m};
use digits::part_digit;
use letters::language_value;
use n_to_x::{part_n, part_p, part_q, part_r, part_s, part_t, part_v, part_w, part_x};
use slots::LANGUAGE;

// A value in a slot.
#[derive(Clone, Copy)]
pub struct Found {
    pub slot: usize,
    pub value: u32,
}

// A value that is found in a slot.
fn in_slot(slot: usize, value: u32) -> Option<Found>
    ensures { result ≡ Some (in_slot slot value) }
{
    Some(Found { slot, value })
}

// What bytes are among the rows that begin with a letter, or with any digit where it is one.
fn by_letter(letter: u8, s: &[u8]) -> Option<Found>
    ensures { SomeIff result (0 < (found_by (class_of letter) s.now).value) (found_by (class_of letter) s.now) }
{
    match letter {
        b'0'..=b'9' => part_digit(s),
        b'a' => part_a(s),
        b'c' => part_c(s),
        b'd' => part_d(s),
        b'f' => part_f(s),
        b'h' => part_h(s),
        b'k' => part_k(s),
        b'l' => part_l(s),
        b'm' => part_m(s),
        b'n' => part_n(s),
        b'p' => part_p(s),
        b'q' => part_q(s),
        b'r' => part_r(s),
        b's' => part_s(s),
        b't' => part_t(s),
        b'v' => part_v(s),
        b'w' => part_w(s),
        b'x' => part_x(s),
        _ => None,
    }
}

// What the bytes s are, where they are a part.
pub fn recognise(s: &[u8]) -> Option<Found>
    ensures { SomeIff result (0 < (recognised s.now).value) (recognised s.now) }
{
    if let Some(language) = language_value(s) {
        return in_slot(LANGUAGE, language);
    }
    by_letter(*s.first()?, s)
}
