#![tactic(auto)]
// The clerk's desk: the first argument is a word that says what is to be done, and each word has a module.
mod given;
mod kind;
mod name;
mod say;

use compare::same;
use std::io;

// Room for the longest argument that Linux takes where a page has 4,096 bytes.
const ROOM: usize = 131072;

// What a word asks for.
#[derive(Clone, Copy)]
enum Task {
    Name,
    Words,
    Unknown,
}

// The task of a word.
fn task_of(word: &[u8]) -> Task {
    if same(word, b"name") {
        return Task::Name;
    }
    if same(word, b"words") {
        return Task::Words;
    }
    Task::Unknown
}

// Says that a word has no task.
fn unknown(rt: &impl Print, word: &[u8]) -> io::Result<()> {
    say::misused(rt)?;
    say::quoted(rt, word)?;
    say::plainly(rt, b" is none of its words\n")
}

// Lends the room for an argument, and has the task done that the first one names.
fn main(rt: HostRuntime) -> io::Result<()> {
    let mut room = [0u8; ROOM];
    let n = given::put(&rt, 1, &mut room);
    match task_of(&room[..n]) {
        Task::Name => name::answer(&rt, &mut room),
        Task::Words => kind::answer(&rt, &mut room),
        Task::Unknown => unknown(&rt, &room[..n]),
    }
}
