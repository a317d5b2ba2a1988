// What is held of a run while it is walked: a number for each distinct record, in rising order of the records. The number is the record's
// first offset and, beside it, how often the record was met: offset * 2^32 + count. In bytes of 2^32 or more that may not fit; then
// the offset alone is held, and `recount` counts.
ghost use Rattle.std.specs.Prelude.{◌≡◌, true, ◌%◌, ◌*◌, ◌+◌, ◌-◌, ◌/◌, ◌<◌, ◌≤◌, length, take};
ghost use Rattle.order_at.specs.OrderAt.{order_at};
ghost use Rattle.rising.specs.Rising.{Rises};
ghost use Rattle.index.specs.Steps.{Fits, Gathered, CanTakeIn, SeatAmong, TakenIn, carry, places_in, count_step, unit_of};

use order::Ordering;
use order_at::order_at;
use runs::front_at;

// The offset in a held number.
pub(crate) fn offset_in(w: usize, counted: bool) -> usize
    ensures { result ≡ w / unit_of counted }
{
    if counted { w / 4294967296 } else { w }
}

// The count in a held number: 0 where none is held.
pub(crate) fn count_in(w: usize, counted: bool) -> usize
    ensures { result ≡ w % unit_of counted }
{
    if counted { w % 4294967296 } else { 0 }
}

// What one occurrence counts in a held number.
fn step_in(counted: bool) -> usize
    ensures { result ≡ count_step counted }
{
    counted as usize
}

// The number that is held for a record met for the first time.
fn first_at(offset: usize, counted: bool) -> usize
    requires { counted ≡ true → offset < 4294967296 }
    ensures { result ≡ offset * unit_of counted + count_step counted }
{
    if counted {
        offset * 4294967296 + 1
    } else {
        offset
    }
}

// Seeks the record at an offset among the first m held ones, which rise, by halving: the place of the one that is Equal, or the place
// where it would stand.
pub(crate) fn seek(
    bytes: &[u8],
    offset: usize,
    held: &[usize],
    m: usize,
    counted: bool,
) -> Result<usize, usize>
    requires { (m ≤ length held.now) × Rises (order_at bytes.now) (places_in counted (take m held.now)) }
    ensures { SeatAmong bytes.now offset (places_in counted (take m held.now)) result }
{
    let mut lo = 0;
    let mut hi = m;
    while lo < hi {
        let mid = lo + (hi - lo) / 2;
        let w = held[mid];
        match order_at(bytes, offset_in(w, counted), offset) {
            Ordering::Less => lo = mid + 1,
            Ordering::Greater => hi = mid,
            Ordering::Equal => return Ok(mid),
        }
    }
    Err(lo)
}

// Puts x at place `from`, and moves those from there up to place `to` one up.
fn slide(held: &mut [usize], from: usize, to: usize, x: usize)
    requires { (from ≤ to) × (to < length held.old) }
    ensures { held.new ≡ carry held.old from x (to + 1 - from) }
{
    let mut carried = x;
    for i in from..to + 1 {
        let next = held[i];
        held[i] = carried;
        carried = next;
    }
}

// Takes the record at an offset in, and answers how many are held then; where there is no room for one more it stays out.
fn take_in(
    bytes: &[u8],
    offset: usize,
    held: &mut [usize],
    m: usize,
    room: usize,
    counted: bool,
) -> usize
    requires { CanTakeIn bytes.now offset held.old m room counted }
    ensures { TakenIn bytes.now offset held.old m room counted held.new result }
{
    match seek(bytes, offset, held, m, counted) {
        Ok(at) => {
            held[at] += step_in(counted);
            m
        }
        Err(at) => {
            if room <= m {
                return m + 1;
            }
            slide(held, at, m, first_at(offset, counted));
            m + 1
        }
    }
}

// Gathers the run that begins at offset 0, and answers how many distinct records it has; where there is no room for one it stops.
pub(crate) fn gather(bytes: &[u8], room: usize, counted: bool, held: &mut [usize]) -> usize
    requires { (length held.old ≡ 1024) × ((room ≤ 1024) × Fits bytes.now counted) }
    ensures { Gathered bytes.now room counted held.new result }
{
    let mut m = 0;
    let mut here = 0;
    while let Ok(n) = front_at(bytes, here) {
        m = take_in(bytes, here, held, m, room, counted);
        if room < m {
            return m;
        }
        here += n;
    }
    m
}
