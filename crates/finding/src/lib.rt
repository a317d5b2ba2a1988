#![tactic(auto)]
// Finding a record's entry among the entries of an index. The entries may be any bytes, so they are looked through from the first on:
// halving would ask that they stand in order. Bytes behind the last whole entry aren't looked at.
ghost use Rattle.std.specs.Prelude.{◌≡◌, ◌+◌, ◌<◌, ◌≤◌, eqb, length};
ghost use Rattle.record.specs.Table.{part};
ghost use Rattle.order.specs.Order.{agree};
ghost use Rattle.finding.specs.Finding.{find_of, find_told, found_at, place_of, sought_tells, whole_in};

use answers::Refusal;
use keys::{put_key, sound};
use reading::{lesser, parse};
use record::ResTableConfig;

// The bytes of an entry: its key, an offset and a count.
const ENTRY: usize = 76;

// How many bytes of entries `find_in` looks at: those of 4,294,967,294 entries.
const LOOKED_AT: usize = 326417514344;

// The first of the sixty bytes from an offset on that differs from a key's, counted from 0; 60 where they are the key.
fn apart_at(entries: &[u8], at: usize, key: &[u8]) -> usize
    requires { (at + 60 ≤ length entries.now) × (length key.now ≡ 60) }
    ensures { (result ≤ 60) × (agree (part entries.now at 60) key.now ≡ eqb result 60) }
{
    for i in 0..60 {
        if entries[at + i] != key[i] {
            return i;
        }
    }
    60
}

// The place of the first whole entry with a key, where one has it. Entries that stand in order mostly differ from the key where the one
// before did, so that byte is looked at first.
fn place_of(entries: &[u8], key: &[u8]) -> Option<usize>
    requires { length key.now ≡ 60 }
    ensures { result ≡ found_at (whole_in entries.now) (place_of entries.now key.now) }
{
    let whole = entries.len() / ENTRY;
    let mut spot = 0;
    for place in 0..whole {
        let at = ENTRY * place;
        if entries[at + spot] != key[spot] {
            continue;
        }
        spot = apart_at(entries, at, key);
        if spot == 60 {
            return Some(place);
        }
    }
    None
}

// The place of the entry of a record, counted from 0: the first with its key. There may be none.
pub fn find(entries: &[u8], r: ResTableConfig) -> Option<usize>
    ensures { result ≡ find_of entries.now r }
{
    sound(r);
    let mut key: [u8; 60] = [0; 60];
    put_key(r, 0, &mut key);
    place_of(entries, &key)
}

// The place of the entry of the record at the front of bytes, for the C face: no place is above 4,294,967,293.
pub fn find_in(entries: &[u8], bytes: &[u8]) -> Result<Option<u32>, Refusal>
    ensures { sought_tells result ≡ find_told entries.now bytes.now }
{
    let parsed = parse(bytes)?;
    let n = lesser(LOOKED_AT, entries.len());
    let place = find(&entries[..n], parsed.record);
    Ok(place.map(|place| place as u32))
}
