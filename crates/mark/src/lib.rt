#![tactic(auto)]
// A mark, and fourteen of them in one word: two bits each, imsi's lowest (02, K8). The word is what is kept; letters are made of it.
ghost use Rattle.std.specs.Prelude.{◌≡◌};
ghost use Rattle.buffer.specs.Put.{Put};
ghost use Rattle.buffer.specs.Written.{outcome};
ghost use Rattle.mark.specs.Word.{bits_of, letters_of, letters_outcome};

use answers::Refusal;
use buffer::put_byte;

// What a reader of an age can say of a field.
#[derive(Clone, Copy)]
pub enum Mark {
    // The record doesn't hold it.
    Absent,
    // Its bytes are all zero.
    Blank,
    // One of its bytes isn't zero.
    Filled,
    // The field ends past the age.
    Unknown,
}

impl Mark {
    // The mark's two bits.
    pub fn bits(self) -> u32
        ensures { result ≡ bits_of self }
    {
        match self {
            Self::Absent => 0,
            Self::Blank => 1,
            Self::Filled => 2,
            Self::Unknown => 3,
        }
    }
}

// The letter of each mark, by its two bits.
const LETTERS: [u8; 4] = [b'A', b'B', b'F', b'U'];

// The first number with a bit above those of fourteen marks: 2^28.
const ABOVE: u32 = 268435456;

// Puts the letters of the fourteen marks that a word has in its lowest 28 bits. It refuses nothing.
pub fn put_letters(word: u32, at: usize, out: &mut [u8]) -> usize
    ensures { Put out.old at (letters_of word) out.new result }
{
    let letters = LETTERS;
    let mut o = at;
    let mut rest = word;
    for _ in 0..14usize {
        let bits = (rest % 4) as usize;
        o = put_byte(letters[bits], o, out);
        rest /= 4;
    }
    o
}

// Writes the letters of the fourteen marks of a word.
pub fn write_letters(word: u32, out: &mut [u8]) -> Result<usize, Refusal>
    ensures { outcome result out.new ≡ letters_outcome word out.old }
{
    if word >= ABOVE {
        return Err(Refusal::TopBits);
    }
    if out.len() < 14 {
        return Err(Refusal::ShortBuffer);
    }
    put_letters(word, 0, out);
    Ok(14)
}
