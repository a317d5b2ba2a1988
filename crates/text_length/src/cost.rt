// What a place adds to a text that isn't empty.
ghost use Rattle.std.specs.Prelude.{suc, ◌+◌, ◌≤◌, cond, ◌∷◌, [], ◌≡◌, length};
ghost use Rattle.buffer.specs.Ascii.{ascii};
ghost use Rattle.buffer.specs.Decimal.{decimal};
ghost use Rattle.places.specs.Say.{say_all};
ghost use Rattle.places.specs.Places.{kind_place, some};

use buffer::decimal_length;
use said_kinds::Said;
use words_length::words_length;

// A kind adds a dash and its words where it is said.
pub(crate) fn kind_cost<K: Said>(kind: K) -> usize
    ensures result_value { suc result ≡ length (say_all (ascii "-") (kind_place (K.as_kind kind) ∷ [])) }
    ensures upper_bound { result ≤ 26 }
{
    if kind.is_said() {
        1 + words_length(kind.as_kind())
    } else {
        0
    }
}

// How many digits a number of 16 bits has.
pub(crate) fn digits(n: u16) -> usize
    ensures value { result ≡ length (decimal n) }
    ensures upper_bound { result ≤ 5 }
{
    decimal_length(n as u64)
}

// A number adds its digits, and beside them fixed bytes, the dash among them, unless it is 0.
pub(crate) fn number_cost(fixed: usize, n: u16) -> usize
    requires { fixed ≤ 5 }
    ensures value { result ≡ cond (some n) (fixed + length (decimal n)) 0 }
    ensures upper_bound { result ≤ 10 }
{
    if n == 0 {
        return 0;
    }
    fixed + digits(n)
}
