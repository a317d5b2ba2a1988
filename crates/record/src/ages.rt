// The ages of readers: where what a reader knows of a record ends.
ghost use Rattle.std.specs.Prelude.{◌≡◌, get_or};
ghost use Rattle.record.specs.Ages.{ages, end_of_age, is_age};

use crate::ENDS;
use answers::Refusal;

// An age: one of the twelve constants, or a number that is refused.
#[derive(Clone, Copy)]
pub struct Age(pub u32);

impl Age {
    // The age that knows the fields up to `screen_type`.
    pub const A16: Age = Age(16);

    // The age that knows the fields up to `generic_purpose_field`.
    pub const A20: Age = Age(20);

    // The age that knows the fields up to `screen_size`.
    pub const A24: Age = Age(24);

    // The age that knows the fields up to `version`.
    pub const A28: Age = Age(28);

    // The age that knows the fields up to `screen_config`.
    pub const A32: Age = Age(32);

    // The age that knows the fields up to `screen_size_dp`.
    pub const A36: Age = Age(36);

    // The age that knows the fields up to `locale_script`.
    pub const A40: Age = Age(40);

    // The age that knows the fields up to `locale_variant`.
    pub const A48: Age = Age(48);

    // The age that knows the fields up to `screen_config_2`.
    pub const A52: Age = Age(52);

    // The age that knows the fields up to `locale_script_was_computed`.
    pub const A53: Age = Age(53);

    // The age that knows the fields up to `locale_numbering_system`.
    pub const A61: Age = Age(61);

    // The age that knows the fields up to `end_padding`.
    pub const A64: Age = Age(64);

    // The age of a reader that is given none.
    pub const DEFAULT: Age = Age::A52;

    // Whether the age is among the twelve, which are the ends of the fields from `screen_type` on.
    pub fn is_age(self) -> bool
        ensures { result ≡ is_age self.0 }
    {
        ENDS[3..].contains(&(self.0 as usize))
    }

    // The offset up to which a reader of the age knows a record; an age that is none of the twelve is refused.
    pub fn end(self) -> Result<usize, Refusal>
        ensures { result ≡ end_of_age self.0 }
    {
        if self.is_age() {
            Ok(self.0 as usize)
        } else {
            Err(Refusal::NotAnAge)
        }
    }

    // The age in a row of the twelve, counted from 0 by rising age, and 0, which is none, past the last.
    pub fn nth(row: usize) -> Self
        ensures { result.0 ≡ get_or ages row 0 }
    {
        match row {
            0 => Self::A16,
            1 => Self::A20,
            2 => Self::A24,
            3 => Self::A28,
            4 => Self::A32,
            5 => Self::A36,
            6 => Self::A40,
            7 => Self::A48,
            8 => Self::A52,
            9 => Self::A53,
            10 => Self::A61,
            11 => Self::A64,
            _ => Age(0),
        }
    }
}
