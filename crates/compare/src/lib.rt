#![tactic(auto)]
// Bytes held against bytes.
ghost use Rattle.std.specs.Prelude.{◌≡◌, ◌+◌, ◌≤◌, drop, length};
ghost use Rattle.compare.specs.Compare.{same, begins_with, up_to};

// Whether two slices hold the same bytes.
pub fn same(s: &[u8], w: &[u8]) -> bool
    ensures { result ≡ same s.now w.now }
{
    // `==` calls the scan of long slices for each word that shares four bytes, and a directory name took 5% more instructions.
    if s.len() != w.len() {
        return false;
    }
    for i in 0..s.len() {
        if s[i] != w[i] {
            return false;
        }
    }
    true
}

// Whether s begins with w.
pub fn begins_with(s: &[u8], w: &[u8]) -> bool
    ensures { result ≡ begins_with w.now s.now }
{
    let n = w.len();
    if s.len() < n {
        return false;
    }
    same(&s[..n], w)
}

// The offset of the first b that stands at an offset or behind it; the end where there is none, and the offset where it is past the end.
pub fn next_at(s: &[u8], at: usize, b: u8) -> usize
    ensures { result ≡ at + up_to b (drop at s.now) }
{
    let Some(rest) = s.get(at..) else {
        return at;
    };
    at + rest.iter().position(|x| *x == b).unwrap_or(rest.len())
}

// How many bytes stand before the first b, all of them where there is none.
pub fn up_to(s: &[u8], b: u8) -> usize
    ensures value { result ≡ up_to b s.now }
    ensures upper_bound { result ≤ length s.now }
{
    next_at(s, 0, b)
}
