#![tactic(auto)]
// The run reader: a struct that holds the lent bytes, its offset and its age, over the covered step of runs.
ghost use Rattle.std.specs.Prelude.{◌≡◌};
ghost use Rattle.runs.specs.Runs.{step_of, step_outcome};
ghost use Rattle.reader.specs.Reader.{reader_at, reader_of};

use record::Age;
use runs::{Stepped, step_at};

// A reader of a run: the lent bytes, the offset where it stands, and the age at which it reads.
#[derive(Clone, Copy)]
pub struct RunReader<'a> {
    pub bytes: &'a [u8],
    pub offset: usize,
    pub age: Age,
}

impl<'a> RunReader<'a> {
    // A reader at the front of the bytes, of the default age.
    pub fn new(bytes: &'a [u8]) -> RunReader<'a>
        ensures { result ≡ reader_of bytes.entry }
    {
        RunReader {
            bytes,
            offset: 0,
            age: Age::DEFAULT,
        }
    }

    // A reader at an offset of the bytes, of an age.
    pub fn new_at(bytes: &'a [u8], offset: usize, age: Age) -> RunReader<'a>
        ensures { result ≡ reader_at bytes.entry offset age }
    {
        RunReader { bytes, offset, age }
    }

    // Reads the record at the reader's offset, at its age.
    pub fn next(self) -> Stepped
        ensures { step_outcome result ≡ step_of self.entry.age.0 self.entry.bytes.now self.entry.offset }
    {
        let bytes = self.bytes;
        let offset = self.offset;
        let age = self.age;
        step_at(bytes, offset, age)
    }

    // The same reader at another offset.
    pub fn moved(self, offset: usize) -> RunReader<'a>
        ensures { result ≡ reader_at self.entry.bytes offset self.entry.age }
    {
        RunReader {
            bytes: self.bytes,
            offset,
            age: self.age,
        }
    }
}

// Reads the record at an offset through a reader made there: with plain parameters, so that every other caller is covered.
pub fn read_at(bytes: &[u8], offset: usize, age: Age) -> Stepped
    ensures { step_outcome result ≡ step_of age.0 bytes.now offset }
{
    RunReader::new_at(bytes, offset, age).next()
}
