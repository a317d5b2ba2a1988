#![tactic(auto)]
// The index of a run: an entry for each distinct record, in rising order, with where it stands first and how often.
//
// `held` walks the run once and holds a number for each distinct record, in 8 KB of the call's own: nothing lent is touched before it is known
// that the index fits. Where these numbers have no room for counts, `recount` walks it once more and counts in the entries.
mod held;
mod recount;

ghost use Rattle.std.specs.Prelude.{◌≡◌, ◌≤◌, length, take};
ghost use Rattle.buffer.specs.Put.{Put};
ghost use Rattle.buffer.specs.Written.{outcome};
ghost use Rattle.index.specs.Index.{index_outcome, index_written, indexed_outcome};
ghost use Rattle.index.specs.Steps.{entries_held};

use answers::Refusal;
use entries::put_entry;
use order_at::record_at;
use reading::lesser;
use runs::{RunEnd, walk};

// How many entries the index of a run has or why none is written, and how many records the run has, where it stops and why.
#[derive(Clone, Copy)]
pub struct Indexed {
    pub answer: Result<usize, Refusal>,
    pub end: RunEnd,
}

// Puts the entries of the first m held numbers.
fn put_entries(bytes: &[u8], held: &[usize], m: usize, counted: bool, out: &mut [u8]) -> usize
    requires { m ≤ length held.now }
    ensures { Put out.old 0 (entries_held bytes.now counted (take m held.now)) out.new result }
{
    let mut o = 0;
    for &w in &held[..m] {
        let offset = held::offset_in(w, counted);
        let count = held::count_in(w, counted);
        let x = record_at(bytes, offset);
        o = put_entry(x, offset, count, o, out);
    }
    o
}

// Writes the index of the run that begins at offset 0, and answers how many entries it has.
fn write_index(bytes: &[u8], out: &mut [u8]) -> Result<usize, Refusal>
    ensures { outcome result out.new ≡ index_written bytes.now out.old }
{
    let mut held: [usize; 1024] = [0; 1024];
    let room = lesser(1024, out.len() / 76);
    let counted = bytes.len() < 4294967296;
    let m = held::gather(bytes, room, counted, &mut held);
    if room < m {
        return Err(Refusal::ShortBuffer);
    }
    put_entries(bytes, &held, m, counted, out);
    if !counted {
        recount::recount(bytes, &held, m, out);
    }
    Ok(m)
}

// Writes the index of the run that begins at offset 0, and walks the run to where it stops.
pub fn index(bytes: &[u8], out: &mut [u8]) -> Indexed
    ensures { indexed_outcome result out.new ≡ index_outcome bytes.now out.old }
{
    let end = walk(bytes, 0);
    Indexed {
        answer: write_index(bytes, out),
        end,
    }
}
