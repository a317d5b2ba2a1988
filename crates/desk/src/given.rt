// The arguments, counted from 0, which is the program's own name.
ghost use Rattle.std.specs.Prelude.{◌≤◌, length};

use std::env::FillError;
use std::rt::Env;

// Whether there is an argument at a place, however long it is.
fn is_there(rt: &impl Env, place: usize) -> bool {
    match rt.arg(place, &mut []) {
        Err(FillError::NotPresent) => false,
        _ => true,
    }
}

// Whether the argument at a place is there and is the last.
pub(crate) fn ends_at(rt: &impl Env, place: usize) -> bool {
    is_there(rt, place) && !is_there(rt, place.saturating_add(1))
}

// Puts the argument at a place at the room's front, and gives its length: 0 where it isn't there or has no room.
pub(crate) fn put(rt: &impl Env, place: usize, room: &mut [u8]) -> usize
    ensures { result ≤ length room.new }
{
    match rt.arg(place, room) {
        Ok(n) => n,
        Err(_) => 0,
    }
}
