#![tactic(auto)]
// The words of the sixteen kinds, as 000 displays them.
mod input;
mod layout;
mod mode;
mod screen;

ghost use Rattle.std.specs.Prelude.{ℕ, List};
ghost use Rattle.buffer.specs.Put.{Put};
ghost use Rattle.words.specs.Words.{words_of};

use kinds::Kind;

// A kind that has words.
pub trait Words: Copy {
    // Its words.
    ghost words: { Self → List ℕ };

    // Puts the words. Machinery: it stops at the buffer's end and refuses nothing.
    fn put_words(self, at: usize, out: &mut [u8]) -> usize
        ensures { Put out.old at (words self) out.new result };
}

// The words of any of the sixteen.
impl Words for Kind {
    ghost words = { words_of };

    fn put_words(self, at: usize, out: &mut [u8]) -> usize {
        match self {
            Kind::GrammaticalGender(kind) => kind.put_words(at, out),
            Kind::LayoutDir(kind) => kind.put_words(at, out),
            Kind::ScreenSize(kind) => kind.put_words(at, out),
            Kind::ScreenLong(kind) => kind.put_words(at, out),
            Kind::ScreenRound(kind) => kind.put_words(at, out),
            Kind::WideColorGamut(kind) => kind.put_words(at, out),
            Kind::Hdr(kind) => kind.put_words(at, out),
            Kind::Orientation(kind) => kind.put_words(at, out),
            Kind::UIMode(kind) => kind.put_words(at, out),
            Kind::UIModeNight(kind) => kind.put_words(at, out),
            Kind::Density(kind) => kind.put_words(at, out),
            Kind::Touchscreen(kind) => kind.put_words(at, out),
            Kind::KeysHidden(kind) => kind.put_words(at, out),
            Kind::Keyboard(kind) => kind.put_words(at, out),
            Kind::NavHidden(kind) => kind.put_words(at, out),
            Kind::Navigation(kind) => kind.put_words(at, out),
        }
    }
}
