// What stands at the front of bytes that should be UTF-8, by the rows of the Unicode Standard's Table 3-7.
ghost use Rattle.std.specs.Prelude.{◌≡◌, ◌∷◌, [], ◌<◌, length};
ghost use Rattle.std.proofs.Math.Option.{some};
ghost use Rattle.subtag.specs.Utf8.{ok_at, judge, front_of};

// A well-formed sequence or the maximal subpart of one that is not, with how many bytes it has.
#[derive(Clone, Copy)]
pub enum Front {
    WellFormed(usize),
    IllFormed(usize),
}

// Whether s has a byte from lo to hi at offset i.
fn ok_at(s: &[u8], i: usize, lo: u8, hi: u8) -> bool
    ensures { result ≡ ok_at s.now i lo hi }
{
    if i < s.len() {
        let b = s[i];
        if b <= hi { lo <= b } else { false }
    } else {
        false
    }
}

// A first byte that asks for one byte more, from lo to hi.
fn front_of_two(s: &[u8], lo: u8, hi: u8) -> Front
    ensures { result ≡ judge (some ((lo, hi) ∷ [])) s.now }
{
    if ok_at(s, 1, lo, hi) {
        Front::WellFormed(2)
    } else {
        Front::IllFormed(1)
    }
}

// A first byte that asks for two more, the next from lo to hi.
fn front_of_three(s: &[u8], lo: u8, hi: u8) -> Front
    ensures { result ≡ judge (some ((lo, hi) ∷ (0x80, 0xBF) ∷ [])) s.now }
{
    if !ok_at(s, 1, lo, hi) {
        return Front::IllFormed(1);
    }
    if ok_at(s, 2, 0x80, 0xbf) {
        Front::WellFormed(3)
    } else {
        Front::IllFormed(2)
    }
}

// A first byte that asks for three more, the next from lo to hi.
fn front_of_four(s: &[u8], lo: u8, hi: u8) -> Front
    ensures { result ≡ judge (some ((lo, hi) ∷ (0x80, 0xBF) ∷ (0x80, 0xBF) ∷ [])) s.now }
{
    if !ok_at(s, 1, lo, hi) {
        return Front::IllFormed(1);
    }
    if !ok_at(s, 2, 0x80, 0xbf) {
        return Front::IllFormed(2);
    }
    if ok_at(s, 3, 0x80, 0xbf) {
        Front::WellFormed(4)
    } else {
        Front::IllFormed(3)
    }
}

// The front of s, row by row.
pub(crate) fn first(s: &[u8]) -> Front
    requires { 0 < length s.now }
    ensures { result ≡ front_of s.now }
{
    let b = s[0];
    if b <= 0x7f {
        return Front::WellFormed(1);
    }
    if b < 0xc2 {
        return Front::IllFormed(1);
    }
    if b <= 0xdf {
        return front_of_two(s, 0x80, 0xbf);
    }
    if b <= 0xe0 {
        return front_of_three(s, 0xa0, 0xbf);
    }
    if b <= 0xec {
        return front_of_three(s, 0x80, 0xbf);
    }
    if b <= 0xed {
        return front_of_three(s, 0x80, 0x9f);
    }
    if b <= 0xef {
        return front_of_three(s, 0x80, 0xbf);
    }
    if b <= 0xf0 {
        return front_of_four(s, 0x90, 0xbf);
    }
    if b <= 0xf3 {
        return front_of_four(s, 0x80, 0xbf);
    }
    if b <= 0xf4 {
        return front_of_four(s, 0x80, 0x8f);
    }
    Front::IllFormed(1)
}
