#![tactic(auto)]
// What is shown of the record at an offset of a run: its text and its marks. Apart from runs, which call no text, so that each is checked in
// less time.
ghost use Rattle.std.specs.Prelude.{◌≡◌, drop};
ghost use Rattle.buffer.specs.Counted.{counted_outcome};
ghost use Rattle.buffer.specs.Written.{outcome};
ghost use Rattle.marking.specs.Marks.{marks_outcome};
ghost use Rattle.text.specs.Counted.{counted_aged};

use answers::{Counted, Refusal};
use marking::marks;
use reading::lesser;
use record::Age;
use text::aged_text;

// Writes the text of the record at an offset for a reader of an age.
pub fn text_at(bytes: &[u8], offset: usize, age: Age, out: &mut [u8]) -> Result<Counted, Refusal>
    ensures { counted_outcome result out.new ≡ counted_aged age.0 (drop offset bytes.now) out.old }
{
    let from = lesser(offset, bytes.len());
    aged_text(&bytes[from..], age, out)
}

// Writes the fourteen marks of the record at an offset for a reader of an age.
pub fn marks_at(bytes: &[u8], offset: usize, age: Age, out: &mut [u8]) -> Result<usize, Refusal>
    ensures { outcome result out.new ≡ marks_outcome age.0 (drop offset bytes.now) out.old }
{
    let from = lesser(offset, bytes.len());
    marks(&bytes[from..], age, out)
}
