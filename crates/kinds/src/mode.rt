// The kinds that speak of the use: who is spoken to, where, and whether at night.
ghost use Rattle.std.specs.Prelude.{◌≡◌};
ghost use Rattle.kinds.specs.Mode.{grammatical_gender_of, ui_mode_of, ui_mode_night_of};

// The grammatical gender of who is spoken to.
#[derive(Clone, Copy, Debug, PartialEq, Eq)]
pub enum GrammaticalGender {
    Neuter,
    Feminine,
    Masculine,
    Any,
}

// From the low two bits.
impl From<u8> for GrammaticalGender {
    ghost from_gives = { λ n kind. kind ≡ grammatical_gender_of n };

    fn from(value: u8) -> Self {
        match value & 0b11 {
            0b01 => Self::Neuter,
            0b10 => Self::Feminine,
            0b11 => Self::Masculine,
            _ => Self::Any,
        }
    }
}

// What the device is used as.
#[derive(Clone, Copy, Debug, PartialEq, Eq)]
pub enum UIMode {
    Any,
    Normal,
    Desk,
    Car,
    Television,
    Appliance,
    Watch,
    VRHeadset,
    Unknown(u8),
}

// From the low four bits.
impl From<u8> for UIMode {
    ghost from_gives = { λ n kind. kind ≡ ui_mode_of n };

    fn from(value: u8) -> Self {
        match value & 0x0f {
            0x00 => Self::Any,
            0x01 => Self::Normal,
            0x02 => Self::Desk,
            0x03 => Self::Car,
            0x04 => Self::Television,
            0x05 => Self::Appliance,
            0x06 => Self::Watch,
            0x07 => Self::VRHeadset,
            v => Self::Unknown(v),
        }
    }
}

// Whether it is night.
#[derive(Clone, Copy, Debug, PartialEq, Eq)]
pub enum UIModeNight {
    Any,
    No,
    Yes,
    Unknown(u8),
}

// From bits 4 and 5.
impl From<u8> for UIModeNight {
    ghost from_gives = { λ n kind. kind ≡ ui_mode_night_of n };

    fn from(value: u8) -> Self {
        match value & 0x30 {
            0x00 => Self::Any,
            0x10 => Self::No,
            0x20 => Self::Yes,
            v => Self::Unknown(v),
        }
    }
}
