#![tactic(auto)]
// Prints the listing of standard input, read as a run at the age that is its argument, or at the default age where it has none. Where the
// argument is no age, or a read fails, it says so on standard error and prints nothing. Where a write fails, it ends with that error.
ghost use Rattle.std.specs.Prelude.{◌≤◌, length, IfOk};

use answers::Refusal;
use lines::{age_line, first, line, stop_line};
use numbers::number_in;
use record::Age;
use runs::Stop;
use std::env::FillError;
use std::io;
use std::io::Read;
use std::rt::Env;

// Whether there is an argument at a place, however long it is. The program's own name is at 0.
fn is_given(rt: &impl Env, place: usize) -> bool {
    match rt.arg(place, &mut []) {
        Err(FillError::NotPresent) => false,
        _ => true,
    }
}

// The age that the arguments give, where they are none or one number that is one of the twelve.
fn given_age(rt: &impl Env, room: &mut [u8]) -> Option<Age> {
    if !is_given(rt, 1) {
        return Some(Age::DEFAULT);
    }
    if is_given(rt, 2) {
        return None;
    }
    let n = rt.arg(1, room).ok()?;
    let age = Age(u32::from(number_in(&room[..n])?));
    age.is_age().then_some(age)
}

// Says that the age is none of the twelve.
fn say_no_age(rt: &impl Eprint) -> io::Result<()> {
    rt.eprint("listing: the age isn't one of")?;
    for row in 0..12 {
        let age = Age::nth(row).0;
        eprint!(rt; " {age}")?;
    }
    rt.eprintln("")
}

// Reads until the buffer is full or the input ends, in however many pieces it comes, and gives how many bytes were read.
fn fill(input: &mut impl Read, buffer: &mut [u8]) -> io::Result<usize>
    ensures { IfOk result (λ count. count ≤ length buffer.new) }
{
    let mut count = 0;
    while count < buffer.len() {
        let more = input.read(&mut buffer[count..])?;
        if more == 0 {
            break;
        }
        count += more;
    }
    Ok(count)
}

// Prints the first n bytes of a buffer; says whether they are there.
fn print(rt: &impl Print, n: usize, out: &[u8]) -> io::Result<bool> {
    if out.len() < n {
        return Ok(false);
    }
    rt.write_all(&out[..n])?;
    Ok(true)
}

// Prints what a call wrote; says whether it wrote something.
fn print_written(rt: &impl Print, answer: Result<usize, Refusal>, out: &[u8]) -> io::Result<bool> {
    match answer {
        Ok(n) => Ok(n != 0 && print(rt, n, out)?),
        Err(_) => Ok(false),
    }
}

// Prints the listing of input that is refused: the age, and a stop at the front.
fn print_refused(rt: &impl Print, age: Age, why: Refusal, out: &mut [u8]) -> io::Result<()> {
    let began = age_line(age, out);
    if print_written(rt, began, out)? {
        let stop = stop_line(0, Stop::Refused(why), out);
        print_written(rt, stop, out)?;
    }
    Ok(())
}

// Prints the listing line by line. Nothing says here that it ends, so the turns are counted, and are more than it has lines.
fn print_listing(rt: &impl Print, bytes: &[u8], age: Age, out: &mut [u8]) -> io::Result<()> {
    let mut cursor = first();
    for _ in 0..u32::MAX {
        let lined = line(bytes, age, cursor, out);
        let answer = lined.answer;
        cursor = lined.cursor;
        match answer {
            Err(why) => return print_refused(rt, age, why, out),
            Ok(n) => {
                if n == 0 || !print(rt, n, out)? {
                    return Ok(());
                }
            }
        }
    }
    Ok(())
}

// Lends the buffers: one byte more than a listing takes, so that too much input is seen, and room for any record's line. The age is read
// before the input, where the input will stand.
fn main(rt: HostRuntime) -> io::Result<()> {
    let mut buffer = [0u8; 65537];
    let mut out = [0u8; 1104];
    let Some(age) = given_age(&rt, &mut buffer) else {
        return say_no_age(&rt);
    };
    let mut input = rt.stdin();
    match fill(&mut input, &mut buffer) {
        Ok(n) => print_listing(&rt, &buffer[..n], age, &mut out),
        Err(why) => eprintln!(rt; "listing: standard input: {why}"),
    }
}
