#![tactic(auto)]
// Which cases of a kind are said.
ghost use Rattle.std.specs.Prelude.{◌≡◌, Bool, refl};
ghost use Rattle.said_kinds.specs.Said.{grammatical_gender_said, layout_dir_said, screen_size_said, screen_long_said, screen_round_said, wide_color_gamut_said, hdr_said, orientation_said, ui_mode_said, ui_mode_night_said, density_said, touchscreen_said, keys_hidden_said, keyboard_said, nav_hidden_said, navigation_said, kind_said};
ghost use Rattle.kinds.specs.declared.Kind.{Kind};

use kinds::{
    Density, GrammaticalGender, Hdr, Keyboard, KeysHidden, Kind, LayoutDir, NavHidden, Navigation,
    Orientation, ScreenLong, ScreenRound, ScreenSize, Touchscreen, UIMode, UIModeNight,
    WideColorGamut,
};

// A kind that a record's text may say.
pub trait Said: Copy {
    // Whether it is said.
    ghost said: { Self → Bool };

    // Which of the sixteen it is.
    ghost as_kind: { Self → Kind };

    // Whether the kind is said.
    fn is_said(self) -> bool
        ensures { result ≡ said self };

    // The same as one of the sixteen.
    fn as_kind(self) -> Kind
        ensures { result ≡ as_kind self };

    // It is said where that one is.
    ghost said_alike: { (kind : Self) → said kind ≡ kind_said (as_kind kind) };
}

// A GrammaticalGender is said unless it is Any.
impl Said for GrammaticalGender {
    ghost said = { grammatical_gender_said };

    ghost as_kind = { Kind.GrammaticalGender };

    ghost said_alike = { λ kind. refl };

    fn is_said(self) -> bool {
        !matches!(self, GrammaticalGender::Any)
    }

    fn as_kind(self) -> Kind {
        Kind::GrammaticalGender(self)
    }
}

// A LayoutDir is said unless it is Any.
impl Said for LayoutDir {
    ghost said = { layout_dir_said };

    ghost as_kind = { Kind.LayoutDir };

    ghost said_alike = { λ kind. refl };

    fn is_said(self) -> bool {
        !matches!(self, LayoutDir::Any(_))
    }

    fn as_kind(self) -> Kind {
        Kind::LayoutDir(self)
    }
}

// A ScreenSize is said unless it is Any.
impl Said for ScreenSize {
    ghost said = { screen_size_said };

    ghost as_kind = { Kind.ScreenSize };

    ghost said_alike = { λ kind. refl };

    fn is_said(self) -> bool {
        !matches!(self, ScreenSize::Any(_))
    }

    fn as_kind(self) -> Kind {
        Kind::ScreenSize(self)
    }
}

// A ScreenLong is said unless it is Any.
impl Said for ScreenLong {
    ghost said = { screen_long_said };

    ghost as_kind = { Kind.ScreenLong };

    ghost said_alike = { λ kind. refl };

    fn is_said(self) -> bool {
        !matches!(self, ScreenLong::Any(_))
    }

    fn as_kind(self) -> Kind {
        Kind::ScreenLong(self)
    }
}

// A ScreenRound is said unless it is Any.
impl Said for ScreenRound {
    ghost said = { screen_round_said };

    ghost as_kind = { Kind.ScreenRound };

    ghost said_alike = { λ kind. refl };

    fn is_said(self) -> bool {
        !matches!(self, ScreenRound::Any(_))
    }

    fn as_kind(self) -> Kind {
        Kind::ScreenRound(self)
    }
}

// A WideColorGamut is said unless it is Any.
impl Said for WideColorGamut {
    ghost said = { wide_color_gamut_said };

    ghost as_kind = { Kind.WideColorGamut };

    ghost said_alike = { λ kind. refl };

    fn is_said(self) -> bool {
        !matches!(self, WideColorGamut::Any(_))
    }

    fn as_kind(self) -> Kind {
        Kind::WideColorGamut(self)
    }
}

// An Hdr is said unless it is Any.
impl Said for Hdr {
    ghost said = { hdr_said };

    ghost as_kind = { Kind.Hdr };

    ghost said_alike = { λ kind. refl };

    fn is_said(self) -> bool {
        !matches!(self, Hdr::Any(_))
    }

    fn as_kind(self) -> Kind {
        Kind::Hdr(self)
    }
}

// An Orientation is said unless it is Any.
impl Said for Orientation {
    ghost said = { orientation_said };

    ghost as_kind = { Kind.Orientation };

    ghost said_alike = { λ kind. refl };

    fn is_said(self) -> bool {
        !matches!(self, Orientation::Any)
    }

    fn as_kind(self) -> Kind {
        Kind::Orientation(self)
    }
}

// A UIMode is said unless it is Any.
impl Said for UIMode {
    ghost said = { ui_mode_said };

    ghost as_kind = { Kind.UIMode };

    ghost said_alike = { λ kind. refl };

    fn is_said(self) -> bool {
        !matches!(self, UIMode::Any)
    }

    fn as_kind(self) -> Kind {
        Kind::UIMode(self)
    }
}

// A UIModeNight is said unless it is Any.
impl Said for UIModeNight {
    ghost said = { ui_mode_night_said };

    ghost as_kind = { Kind.UIModeNight };

    ghost said_alike = { λ kind. refl };

    fn is_said(self) -> bool {
        !matches!(self, UIModeNight::Any)
    }

    fn as_kind(self) -> Kind {
        Kind::UIModeNight(self)
    }
}

// A Density is said unless it is Default.
impl Said for Density {
    ghost said = { density_said };

    ghost as_kind = { Kind.Density };

    ghost said_alike = { λ kind. refl };

    fn is_said(self) -> bool {
        !matches!(self, Density::Default)
    }

    fn as_kind(self) -> Kind {
        Kind::Density(self)
    }
}

// A Touchscreen is said unless it is Any.
impl Said for Touchscreen {
    ghost said = { touchscreen_said };

    ghost as_kind = { Kind.Touchscreen };

    ghost said_alike = { λ kind. refl };

    fn is_said(self) -> bool {
        !matches!(self, Touchscreen::Any)
    }

    fn as_kind(self) -> Kind {
        Kind::Touchscreen(self)
    }
}

// A KeysHidden is said unless it is Any.
impl Said for KeysHidden {
    ghost said = { keys_hidden_said };

    ghost as_kind = { Kind.KeysHidden };

    ghost said_alike = { λ kind. refl };

    fn is_said(self) -> bool {
        !matches!(self, KeysHidden::Any)
    }

    fn as_kind(self) -> Kind {
        Kind::KeysHidden(self)
    }
}

// A Keyboard is said unless it is Any.
impl Said for Keyboard {
    ghost said = { keyboard_said };

    ghost as_kind = { Kind.Keyboard };

    ghost said_alike = { λ kind. refl };

    fn is_said(self) -> bool {
        !matches!(self, Keyboard::Any)
    }

    fn as_kind(self) -> Kind {
        Kind::Keyboard(self)
    }
}

// A NavHidden is said unless it is Any.
impl Said for NavHidden {
    ghost said = { nav_hidden_said };

    ghost as_kind = { Kind.NavHidden };

    ghost said_alike = { λ kind. refl };

    fn is_said(self) -> bool {
        !matches!(self, NavHidden::Any)
    }

    fn as_kind(self) -> Kind {
        Kind::NavHidden(self)
    }
}

// A Navigation is said unless it is Any.
impl Said for Navigation {
    ghost said = { navigation_said };

    ghost as_kind = { Kind.Navigation };

    ghost said_alike = { λ kind. refl };

    fn is_said(self) -> bool {
        !matches!(self, Navigation::Any)
    }

    fn as_kind(self) -> Kind {
        Kind::Navigation(self)
    }
}

// Any of the sixteen is said where its own kind is.
impl Said for Kind {
    ghost said = { kind_said };

    ghost as_kind = { λ kind. kind };

    ghost said_alike = { λ kind. refl };

    fn is_said(self) -> bool {
        match self {
            Kind::GrammaticalGender(kind) => kind.is_said(),
            Kind::LayoutDir(kind) => kind.is_said(),
            Kind::ScreenSize(kind) => kind.is_said(),
            Kind::ScreenLong(kind) => kind.is_said(),
            Kind::ScreenRound(kind) => kind.is_said(),
            Kind::WideColorGamut(kind) => kind.is_said(),
            Kind::Hdr(kind) => kind.is_said(),
            Kind::Orientation(kind) => kind.is_said(),
            Kind::UIMode(kind) => kind.is_said(),
            Kind::UIModeNight(kind) => kind.is_said(),
            Kind::Density(kind) => kind.is_said(),
            Kind::Touchscreen(kind) => kind.is_said(),
            Kind::KeysHidden(kind) => kind.is_said(),
            Kind::Keyboard(kind) => kind.is_said(),
            Kind::NavHidden(kind) => kind.is_said(),
            Kind::Navigation(kind) => kind.is_said(),
        }
    }

    fn as_kind(self) -> Kind {
        self
    }
}
