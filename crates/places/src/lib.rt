#![tactic(auto)]
// What the places of a text share: the dash before a place, and a kind's words behind it where it is said. All are machinery: they
// stop at the buffer's end and refuse nothing.
ghost use Rattle.std.specs.Prelude.{◌++◌, ◌∷◌, []};
ghost use Rattle.buffer.specs.Put.{Put};
ghost use Rattle.places.specs.Say.{dash_at, Says};

use buffer::put_byte;
use said_kinds::Said;
use words::Words;

// The dash that stands before a place, unless the place is the first.
pub fn dash(at: usize, out: &mut [u8]) -> usize
    ensures { Put out.old at (dash_at at) out.new result }
{
    if 0 < at { put_byte(b'-', at, out) } else { at }
}

// A kind that is said: the dash, and its words, out of line so that a kind that is silent costs its callers no more than a test.
#[inline(never)]
pub fn say_kind<K: Words>(kind: K, at: usize, out: &mut [u8]) -> usize
    ensures { Put out.old at (dash_at at ++ K.words kind) out.new result }
{
    let a = dash(at, out);
    kind.put_words(a, out)
}

// The place of a kind: its test is made before its words are called for.
pub fn kind_place<K: Said + Words>(kind: K, at: usize, out: &mut [u8]) -> usize
    ensures { Says out.old at ((K.said kind, K.words kind) ∷ []) out.new result }
{
    if kind.is_said() {
        say_kind(kind, at, out)
    } else {
        at
    }
}
