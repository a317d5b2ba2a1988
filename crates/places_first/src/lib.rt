#![tactic(auto)]
// The first thirteen places of a record, put one after the other, a few to a function. A word of the record that is 0 says none of
// its places, so that some are tested by their word first.
//
// `put_first` is machinery: it stops at the buffer's end and refuses nothing.
mod put;

ghost use Rattle.std.specs.Prelude.{[], ◌≡◌, take, drop};
ghost use Rattle.subtag.specs.Copies.{Copies};
ghost use Rattle.locale.specs.Subtags.{text_replacements};
ghost use Rattle.places.specs.Say.{Says, say_all};
ghost use Rattle.places.specs.Places.{places_of};

use kinds::{
    GrammaticalGender, Hdr, LayoutDir, ScreenLong, ScreenRound, ScreenSize, WideColorGamut,
};
use places::kind_place;
use put::{dp_place, label_place, locale_place};
use record::ResTableConfig;
use subtag::Copied;

// Places 0 to 3: the codes, the locale and the gender.
fn places_from_0(r: ResTableConfig, at: usize, out: &mut [u8]) -> Copied
    ensures says { Says out.old at (take 4 (places_of r)) out.new result.at }
    ensures replacements_value { result.replacements ≡ text_replacements r }
{
    let codes = r.get_mcc_mnc();
    let gender = GrammaticalGender::from(r.get_grammatical_inflection());
    let a = label_place(b"mcc", codes.mcc, at, out);
    let b = label_place(b"mnc", codes.mnc, a, out);
    let locale = locale_place(r, b, out);
    Copied {
        at: kind_place(gender, locale.at, out),
        replacements: locale.replacements,
    }
}

// Places 4 to 7: the layout direction and the dp values.
fn places_from_4(r: ResTableConfig, at: usize, out: &mut [u8]) -> usize
    ensures { Says out.old at (take 4 (drop 4 (places_of r))) out.new result }
{
    let layout = r.get_screen_layout_ui_smallest_width();
    let dp = r.get_screen_width_height_dp();
    let a = kind_place(LayoutDir::from(layout.screen_layout), at, out);
    let b = dp_place(b"sw", layout.smallest_screen_width_dp, a, out);
    let c = dp_place(b"w", dp.screen_width_dp, b, out);
    dp_place(b"h", dp.screen_height_dp, c, out)
}

// Places 8 and 9: size and long, of `screen_config`.
fn places_from_8(r: ResTableConfig, at: usize, out: &mut [u8]) -> usize
    ensures { Says out.old at (take 2 (drop 8 (places_of r))) out.new result }
{
    if r.screen_config == 0 {
        return at;
    }
    let layout = r.get_screen_layout_ui_smallest_width();
    let a = kind_place(ScreenSize::from(layout.screen_layout), at, out);
    kind_place(ScreenLong::from(layout.screen_layout), a, out)
}

// Places 10 to 12: round, wide gamut and HDR, of `screen_config_2`.
fn places_from_10(r: ResTableConfig, at: usize, out: &mut [u8]) -> usize
    ensures { Says out.old at (take 3 (drop 10 (places_of r))) out.new result }
{
    if r.screen_config_2 == 0 {
        return at;
    }
    let second = r.get_screen_layout_2_color_mode();
    let a = kind_place(ScreenRound::from(second.screen_layout_2), at, out);
    let b = kind_place(WideColorGamut::from(second.color_mode), a, out);
    kind_place(Hdr::from(second.color_mode), b, out)
}

// Puts places 0 to 12 at the front of out. The locale is among them, and with it all that is replaced.
pub fn put_first(r: ResTableConfig, out: &mut [u8]) -> Copied
    ensures { Copies out.old 0 (say_all [] (take 13 (places_of r))) (text_replacements r) out.new result }
{
    let a = places_from_0(r, 0, out);
    let b = places_from_4(r, a.at, out);
    let c = places_from_8(r, b, out);
    Copied {
        at: places_from_10(r, c, out),
        replacements: a.replacements,
    }
}
