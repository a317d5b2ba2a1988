// `name NAME`: the line of the record for which a directory name stands, as in a listing of that record alone; with `--bytes` before
// the name, the record's 64 bytes.
use crate::{given, say};
use compare::{same, up_to};
use names::write_name;
use reading::lesser;
use record::Age;
use record_line::{LONGEST_LINE, record_line};
use std::io;
use std::rt::Env;

// Says a part of a name.
fn say_part(rt: &impl Print, part: &[u8]) -> io::Result<()> {
    if part.len() == 0 {
        say::plainly(rt, b"an empty part")
    } else {
        say::quoted(rt, part)
    }
}

// Says why bytes are no name: the part at an offset, up to the next '-' or the end, is the first that ends no name.
fn refuse(rt: &impl Print, name: &[u8], offset: usize) -> io::Result<()> {
    let at = lesser(offset, name.len());
    let end = at + up_to(&name[at..], b'-');
    say::refused(rt)?;
    say::plainly(rt, b"not a directory name: ")?;
    say_part(rt, &name[at..end])?;
    say::plainly(rt, b" at offset ")?;
    say::number(rt, at)?;
    say::plainly(rt, b" ends no name\n")
}

// Prints a record: its bytes, or its line.
fn print(rt: &impl Print, record: &[u8], bytes: bool) -> io::Result<()> {
    if bytes {
        say::answer(rt)?;
        return say::plainly(rt, record);
    }
    let mut out = [0u8; LONGEST_LINE];
    let answer = record_line(record, Age::DEFAULT, 0, 0, &mut out);
    say::written(rt, answer, &out, b"")
}

// Answers to a name.
fn named(rt: &impl Print, name: &[u8], bytes: bool) -> io::Result<()> {
    let mut record = [0u8; 64];
    match write_name(name, &mut record) {
        Ok(_) => print(rt, &record, bytes),
        Err(why) => refuse(rt, name, why.carried()),
    }
}

// Whether the argument behind the word says that the bytes are wanted.
fn wants_bytes(rt: &impl Env, room: &mut [u8]) -> bool {
    let n = given::put(rt, 2, room);
    same(&room[..n], b"--bytes")
}

// Takes the name from the arguments and answers to it.
pub(crate) fn answer(rt: &(impl Print + Env), room: &mut [u8]) -> io::Result<()> {
    let bytes = wants_bytes(rt, room);
    let last = if bytes { 3 } else { 2 };
    if !given::ends_at(rt, last) {
        say::misused(rt)?;
        return say::plainly(rt, b"name takes one NAME, or --bytes and one NAME\n");
    }
    match rt.arg(last, room) {
        Ok(n) => named(rt, &room[..n], bytes),
        Err(_) => {
            say::misused(rt)?;
            say::plainly(rt, b"NAME is too long\n")
        }
    }
}
