// One place that is no kind: the dash that stands before it, and its words, where it is said.
ghost use Rattle.std.specs.Prelude.{◌∷◌, [], ◌≡◌};
ghost use Rattle.locale.specs.Locale.{locale_said, locale_words};
ghost use Rattle.locale.specs.Subtags.{text_replacements};
ghost use Rattle.places.specs.Say.{Says};
ghost use Rattle.places.specs.Places.{label_place, dp_place};

use buffer::{put_between, put_label};
use locale::put_locale;
use places::dash;
use record::ResTableConfig;
use subtag::Copied;

// A number behind fixed words.
pub(crate) fn label_place(front: &[u8], n: u16, at: usize, out: &mut [u8]) -> usize
    ensures { Says out.old at (label_place front.now n ∷ []) out.new result }
{
    if n == 0 {
        return at;
    }
    let a = dash(at, out);
    put_label(front, n as u64, a, out)
}

// A number of dp behind fixed words.
pub(crate) fn dp_place(front: &[u8], n: u16, at: usize, out: &mut [u8]) -> usize
    ensures { Says out.old at (dp_place front.now n ∷ []) out.new result }
{
    if n == 0 {
        return at;
    }
    let a = dash(at, out);
    put_between(front, n as u64, b"dp", a, out)
}

// The locale, the one place with subtags.
pub(crate) fn locale_place(r: ResTableConfig, at: usize, out: &mut [u8]) -> Copied
    ensures says { Says out.old at ((locale_said r, locale_words r) ∷ []) out.new result.at }
    ensures replacements_value { result.replacements ≡ text_replacements r }
{
    if r.locale % 256 == 0 {
        return Copied {
            at,
            replacements: 0,
        };
    }
    let a = dash(at, out);
    put_locale(r, a, out)
}
