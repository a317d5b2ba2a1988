#![tactic(auto)]
// How long the text of a record is, learnt by a pass that writes nothing.
//
// A place adds a dash and its words where it is said, but the first that is said has no dash. A word of the record that is 0 says
// nothing, so that it is tested before its places are counted.
mod cost;
mod first;
mod last;

ghost use Rattle.std.specs.Prelude.{◌+◌, ◌-◌, ◌≤◌, cond, true, [], ◌≡◌, eqb, length, take, drop};
ghost use Rattle.places.specs.Say.{say_all};
ghost use Rattle.places.specs.Places.{places_of, text_of};

use first::{first_cost, locale_cost};
use last::{last_cost, mode_cost};
use record::ResTableConfig;

// How long a text of front bytes is with places behind it that add so much: where it was empty, the first of them has no dash.
fn joined(front: usize, cost: usize) -> usize
    requires { (front ≤ 1000) × (cost ≤ 1000) }
    ensures value { result ≡ cond (eqb front 0) (cost - 1) (front + cost) }
    ensures upper_bound { result ≤ front + cost }
{
    if front != 0 {
        return front + cost;
    }
    if cost == 0 {
        return 0;
    }
    cost - 1
}

// Whether no word but the locale says anything, as in many records: then no other place is said.
fn locale_alone(r: ResTableConfig) -> bool
    ensures { result ≡ true → text_of r ≡ say_all [] (take 1 (drop 2 (places_of r))) }
{
    if r.imsi != 0 {
        return false;
    }
    if r.screen_type != 0 {
        return false;
    }
    if r.generic_purpose_field != 0 {
        return false;
    }
    if r.screen_size != 0 {
        return false;
    }
    if r.version != 0 {
        return false;
    }
    if r.screen_config != 0 {
        return false;
    }
    if r.screen_size_dp != 0 {
        return false;
    }
    r.screen_config_2 == 0
}

// How many bytes the text of a record has. A normal UI mode is said and has no words: where it comes first, the text stays empty.
pub fn text_length(r: ResTableConfig) -> usize
    ensures { result ≡ length (text_of r) }
{
    let locale = locale_cost(r);
    if locale_alone(r) {
        return joined(0, locale);
    }
    let first = joined(0, first_cost(r, locale));
    let mode = joined(first, mode_cost(r));
    joined(mode, last_cost(r))
}
