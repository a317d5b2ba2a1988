#![tactic(auto)]
// Runs of records, end to end: what stands at an offset, a step there, and the walk to where a run stops.
ghost use Rattle.std.specs.Prelude.{◌≡◌};
ghost use Rattle.runs.specs.declared.Stop.{Stop};
ghost use Rattle.runs.specs.Fronts.{front_of, step_tells, stop_tells};
ghost use Rattle.runs.specs.Runs.{front_at, run_of, step_of, step_outcome, step_stays};

use answers::{Refusal, Told};
use reading::{lesser, read_to, take};
use record::{Age, ResTableConfig, blank};

// Why a run stops.
#[derive(Clone, Copy)]
pub enum Stop {
    // At the exact end of the bytes.
    Ended,
    // What stands there is refused.
    Refused(Refusal),
}

// The answer of a step.
#[derive(Clone, Copy)]
pub enum Step {
    // A record stands at the offset.
    Found,
    // The run stops there, or the age is none.
    Stopped(Stop),
}

// The answer of a step, the offset where the next one goes on, and the record, which holds nothing where none was found.
#[derive(Clone, Copy)]
pub struct Stepped {
    pub answer: Step,
    pub next: usize,
    pub record: ResTableConfig,
}

// How many records a run has, where it stops, and why.
#[derive(Clone, Copy)]
pub struct RunEnd {
    pub records: usize,
    pub offset: usize,
    pub stop: Stop,
}

impl Stop {
    // What the stop tells in 01's numbers.
    pub fn told(self) -> Told
        ensures { result ≡ stop_tells self }
    {
        match self {
            Self::Ended => Told::success(0),
            Self::Refused(why) => why.told(),
        }
    }
}

impl Step {
    // What the answer tells in 01's numbers.
    pub fn told(self) -> Told
        ensures { result ≡ step_tells self }
    {
        match self {
            Self::Found => Told::success(1),
            Self::Stopped(stop) => stop.told(),
        }
    }
}

// A run stops where what stands is refused.
impl From<Refusal> for Stop {
    ghost from_gives = { λ why stop. stop ≡ Stop.Refused why };

    fn from(why: Refusal) -> Self {
        Stop::Refused(why)
    }
}

// What the answer of a call that takes bytes says of what stands at their front: it takes so many of them, or it stops a run.
pub fn front_of(answer: Result<usize, Refusal>) -> Result<usize, Stop>
    ensures { result ≡ front_of answer }
{
    Ok(answer?)
}

// What stands at an offset of bytes: a whole record, which takes so many of them, or the stop of a run.
pub fn front_at(bytes: &[u8], offset: usize) -> Result<usize, Stop>
    ensures { result ≡ front_at bytes.now offset }
{
    if offset == bytes.len() {
        return Err(Stop::Ended);
    }
    let from = lesser(offset, bytes.len());
    front_of(take(&bytes[from..]))
}

// What a step gives that finds nothing at an offset.
pub fn stays(offset: usize, stop: Stop) -> Stepped
    ensures { step_outcome result ≡ step_stays offset (stop_tells stop) }
{
    let record = blank();
    Stepped {
        answer: Step::Stopped(stop),
        next: offset,
        record,
    }
}

// Reads the record at an offset for a reader of an age.
pub fn step_at(bytes: &[u8], offset: usize, age: Age) -> Stepped
    ensures { step_outcome result ≡ step_of age.0 bytes.now offset }
{
    if !age.is_age() {
        return stays(offset, Stop::Refused(Refusal::NotAnAge));
    }
    match front_at(bytes, offset) {
        Ok(n) => {
            let limit = lesser(n, age.0 as usize);
            let record = read_to(&bytes[offset..], limit);
            Stepped {
                answer: Step::Found,
                next: offset + n,
                record,
            }
        }
        Err(stop) => stays(offset, stop),
    }
}

// Walks the run that begins at an offset to where it stops.
pub fn walk(bytes: &[u8], offset: usize) -> RunEnd
    ensures { result ≡ run_of bytes.now offset }
{
    let mut here = offset;
    let mut records = 0;
    loop {
        match front_at(bytes, here) {
            Ok(n) => {
                here += n;
                records += 1;
            }
            Err(stop) => {
                return RunEnd {
                    records,
                    offset: here,
                    stop,
                };
            }
        }
    }
}
