#![tactic(auto)]
// The chunk reader: a struct that holds the lent bytes, its offset and its age, over the covered step of chunk_runs.
ghost use Rattle.std.specs.Prelude.{◌≡◌};
ghost use Rattle.runs.specs.Runs.{step_outcome};
ghost use Rattle.chunk_runs.specs.Chunks.{chunk_step_of};
ghost use Rattle.chunk_reader.specs.ChunkReader.{chunk_reader_at, chunk_reader_of};

use chunk_runs::chunk_step_at;
use record::Age;
use runs::Stepped;

// A reader of a run of chunks: the lent bytes, the offset where it stands, and the age at which it reads.
#[derive(Clone, Copy)]
pub struct ChunkReader<'a> {
    pub bytes: &'a [u8],
    pub offset: usize,
    pub age: Age,
}

impl<'a> ChunkReader<'a> {
    // A reader at the front of the bytes, of the default age.
    pub fn new(bytes: &'a [u8]) -> ChunkReader<'a>
        ensures { result ≡ chunk_reader_of bytes.entry }
    {
        ChunkReader {
            bytes,
            offset: 0,
            age: Age::DEFAULT,
        }
    }

    // A reader at an offset of the bytes, of an age.
    pub fn new_at(bytes: &'a [u8], offset: usize, age: Age) -> ChunkReader<'a>
        ensures { result ≡ chunk_reader_at bytes.entry offset age }
    {
        ChunkReader { bytes, offset, age }
    }

    // Reads the record of the chunk at the reader's offset, at its age.
    pub fn next(self) -> Stepped
        ensures { step_outcome result ≡ chunk_step_of self.entry.age.0 self.entry.bytes.now self.entry.offset }
    {
        let bytes = self.bytes;
        let offset = self.offset;
        let age = self.age;
        chunk_step_at(bytes, offset, age)
    }

    // The same reader at another offset.
    pub fn moved(self, offset: usize) -> ChunkReader<'a>
        ensures { result ≡ chunk_reader_at self.entry.bytes offset self.entry.age }
    {
        ChunkReader {
            bytes: self.bytes,
            offset,
            age: self.age,
        }
    }
}

// Reads the record of the chunk at an offset through a reader made there: with plain parameters, so that every other caller is covered.
pub fn read_chunk_at(bytes: &[u8], offset: usize, age: Age) -> Stepped
    ensures { step_outcome result ≡ chunk_step_of age.0 bytes.now offset }
{
    ChunkReader::new_at(bytes, offset, age).next()
}
