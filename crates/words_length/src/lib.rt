#![tactic(auto)]
// How long the words of a kind are, and a call that writes them.
mod lengths;

ghost use Rattle.std.specs.Prelude.{◌≤◌, ◌≡◌, length};
ghost use Rattle.buffer.specs.Written.{outcome, written};
ghost use Rattle.words.specs.Words.{words_of};

use answers::Refusal;
use kinds::Kind;
use lengths::WordsLength;
use words::Words;

// How many bytes the words of a kind have: never more than 25.
pub fn words_length(kind: Kind) -> usize
    ensures value { result ≡ length (words_of kind) }
    ensures upper_bound { result ≤ 25 }
{
    kind.words_length()
}

// Writes the words of a kind to the front of out; where out is shorter, it is left as it is.
pub fn write_words(kind: Kind, out: &mut [u8]) -> Result<usize, Refusal>
    ensures { outcome result out.new ≡ written (words_of kind) out.old }
{
    let n = words_length(kind);
    if n <= out.len() {
        kind.put_words(0, out);
        Ok(n)
    } else {
        Err(Refusal::ShortBuffer)
    }
}
