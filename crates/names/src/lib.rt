#![tactic(auto)]
// Directory names: reading one into the record for which it stands, and writing that record's bytes.
mod made;

ghost use Rattle.std.specs.Prelude.{◌≡◌, SomeIff, true};
ghost use Rattle.buffer.specs.Written.{outcome};
ghost use Rattle.grammar.specs.Made.{made};
ghost use Rattle.names.specs.Named.{name_of, name_written};
ghost use Rattle.names.specs.Reading.{may};
ghost use Rattle.parts.specs.Recognised.{recognised};
ghost use Rattle.reading.specs.Reading.{parsed_outcome, parse_took};

use answers::Refusal;
use compare::next_at;
use made::record_of;
use parts::slots::REGION;
use parts::{Found, recognise};
use reading::Parsed;
use writing::write;

// The part that the bytes s are, where it may stand and the slots from next on are free.
fn part_from(next: usize, s: &[u8]) -> Option<Found>
    ensures { SomeIff result (may next (recognised s.now) ≡ true) (recognised s.now) }
{
    let found = recognise(s)?;
    if found.slot == REGION {
        return (next == REGION).then_some(found);
    }
    (next <= found.slot).then_some(found)
}

// What a name of n bytes gives, of the values of its slots.
fn named(n: usize, values: [u32; 25]) -> Parsed
    ensures { parse_took result.taken result.«record» ≡ parse_took n (made values) }
{
    Parsed {
        taken: n,
        record: record_of(values),
    }
}

// Reads a name into the record for which it stands.
pub fn read_name(name: &[u8]) -> Result<Parsed, Refusal>
    ensures { parsed_outcome result ≡ name_of name.now }
{
    let mut values: [u32; 25] = [0; 25];
    if name.len() == 0 {
        return Ok(named(0, values));
    }
    if name[0] == b'-' {
        return Err(Refusal::NotAName(1));
    }
    let mut next = 0;
    let mut at = 0;
    loop {
        let end = next_at(name, at, b'-');
        let Some(found) = part_from(next, &name[at..end]) else {
            return Err(Refusal::NotAName(at));
        };
        let slot = found.slot;
        values[slot] = found.value;
        if end == name.len() {
            return Ok(named(name.len(), values));
        }
        next = slot + 1;
        at = end + 1;
    }
}

// Writes the 64 bytes of the record for which a name stands.
pub fn write_name(name: &[u8], out: &mut [u8]) -> Result<usize, Refusal>
    ensures { outcome result out.new ≡ name_written name.now out.old }
{
    let parsed = read_name(name)?;
    write(parsed.record, out)
}
