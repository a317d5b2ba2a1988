#![tactic(auto)]
// Runs of type chunks, end to end: what stands at an offset, a step there, and the walk to where a run stops.
ghost use Rattle.std.specs.Prelude.{◌≡◌};
ghost use Rattle.runs.specs.Runs.{step_outcome};
ghost use Rattle.chunk_runs.specs.Chunks.{chunk_at, chunk_run, chunk_step_of};

use answers::Refusal;
use chunk::{parse_chunk, take_chunk};
use reading::lesser;
use record::Age;
use runs::{RunEnd, Step, Stepped, Stop, front_of, stays};

// What stands at an offset of bytes: a whole chunk, or the stop of a run.
pub fn chunk_at(bytes: &[u8], offset: usize) -> Result<usize, Stop>
    ensures { result ≡ chunk_at bytes.now offset }
{
    if offset == bytes.len() {
        return Err(Stop::Ended);
    }
    let from = lesser(offset, bytes.len());
    front_of(take_chunk(&bytes[from..]))
}

// Reads the record of the chunk at an offset for a reader of an age. The next chunk stands as far behind as the chunk's size says.
pub fn chunk_step_at(bytes: &[u8], offset: usize, age: Age) -> Stepped
    ensures { step_outcome result ≡ chunk_step_of age.0 bytes.now offset }
{
    if !age.is_age() {
        return stays(offset, Stop::Refused(Refusal::NotAnAge));
    }
    if offset == bytes.len() {
        return stays(offset, Stop::Ended);
    }
    let from = lesser(offset, bytes.len());
    match parse_chunk(&bytes[from..], age) {
        Ok(parsed) => Stepped {
            answer: Step::Found,
            next: offset + parsed.taken,
            record: parsed.record,
        },
        Err(why) => stays(offset, Stop::Refused(why)),
    }
}

// Walks the run that begins at an offset to where it stops.
pub fn walk_chunks(bytes: &[u8], offset: usize) -> RunEnd
    ensures { result ≡ chunk_run bytes.now offset }
{
    let mut here = offset;
    let mut records = 0;
    loop {
        match chunk_at(bytes, here) {
            Ok(n) => {
                here += n;
                records += 1;
            }
            Err(stop) => {
                return RunEnd {
                    records,
                    offset: here,
                    stop,
                };
            }
        }
    }
}
