#![tactic(auto)]
// What the comparison at scale calls of runs of chunks, for which the C face has no call: each from bytes, and answering one number.
ghost use Rattle.std.specs.Prelude.{◌≡◌};
ghost use Rattle.answers.specs.Tells.{packed_of};
ghost use Rattle.runs.specs.Fronts.{step_tells, stop_tells};
ghost use Rattle.chunk_runs.specs.Chunks.{chunk_run, chunk_step_of};
ghost use Rattle.writing.specs.Writing.{write_of};

use chunk_reader::read_chunk_at;
use chunk_runs::{chunk_step_at, walk_chunks};
use record::Age;
use runs::Stepped;
use writing::write;

// Why the run of chunks that begins at an offset stops: the number, with the row of a field that is cut.
#[unsafe(no_mangle)]
pub extern "C" fn probe_chunk_stop(bytes: &[u8], offset: usize) -> u64
    ensures { result ≡ packed_of (stop_tells (chunk_run bytes.now offset).stop) }
{
    let end = walk_chunks(bytes, offset);
    let stop = end.stop;
    stop.told().packed()
}

// Where that run stops.
#[unsafe(no_mangle)]
pub extern "C" fn probe_chunk_end(bytes: &[u8], offset: usize) -> usize
    ensures { result ≡ (chunk_run bytes.now offset).offset }
{
    let end = walk_chunks(bytes, offset);
    end.offset
}

// How many chunks it has.
#[unsafe(no_mangle)]
pub extern "C" fn probe_chunks(bytes: &[u8], offset: usize) -> usize
    ensures { result ≡ (chunk_run bytes.now offset).records }
{
    let end = walk_chunks(bytes, offset);
    end.records
}

// What a step tells; the record that it gives is written to the lent bytes, where they are enough.
fn shown(stepped: Stepped, out: &mut [u8]) -> u64
    ensures value { result ≡ packed_of (step_tells stepped.answer) }
    ensures out_after { out.new ≡ (write_of stepped.«record» out.old).leaves }
{
    let step = stepped.answer;
    let record = stepped.record;
    let _ = write(record, out);
    step.told().packed()
}

// What a step at an offset tells, for a reader of an age, with its record written.
#[unsafe(no_mangle)]
pub extern "C" fn probe_chunk_step(bytes: &[u8], offset: usize, age: u32, out: &mut [u8]) -> u64
    ensures value { result ≡ packed_of (chunk_step_of age bytes.now offset).tells }
    ensures out_after { out.new ≡ (write_of (chunk_step_of age bytes.now offset).gives out.old).leaves }
{
    shown(chunk_step_at(bytes, offset, Age(age)), out)
}

// Where the next step goes on.
#[unsafe(no_mangle)]
pub extern "C" fn probe_chunk_next(bytes: &[u8], offset: usize, age: u32) -> usize
    ensures { result ≡ (chunk_step_of age bytes.now offset).next }
{
    let stepped = chunk_step_at(bytes, offset, Age(age));
    stepped.next
}

// What a reader that is made at an offset tells next, with its record written.
#[unsafe(no_mangle)]
pub extern "C" fn probe_chunk_read(bytes: &[u8], offset: usize, age: u32, out: &mut [u8]) -> u64
    ensures value { result ≡ packed_of (chunk_step_of age bytes.now offset).tells }
    ensures out_after { out.new ≡ (write_of (chunk_step_of age bytes.now offset).gives out.old).leaves }
{
    shown(read_chunk_at(bytes, offset, Age(age)), out)
}

// Where it goes on.
#[unsafe(no_mangle)]
pub extern "C" fn probe_chunk_read_next(bytes: &[u8], offset: usize, age: u32) -> usize
    ensures { result ≡ (chunk_step_of age bytes.now offset).next }
{
    let stepped = read_chunk_at(bytes, offset, Age(age));
    stepped.next
}
