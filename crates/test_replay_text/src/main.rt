#![tactic(auto)]
// Answers the questions of tests/ on texts for the port: reads framed questions (tag, length in four bytes, payload)
// from standard input, and writes each answer to standard output as a line of lowercase hexadecimal digits. The Rust of
// 000 answers the same questions beside it.
mod texts;

use std::io;
use std::io::{ErrorKind, Read};

// Reads so many bytes to a buffer's front; says whether they are all there.
fn filled(input: &mut impl Read, buffer: &mut [u8], length: usize) -> io::Result<bool> {
    let n = test_frames::front(length, buffer);
    match input.read_exact(&mut buffer[..n]) {
        Ok(()) => Ok(n == length),
        Err(why) => {
            if why.kind() == ErrorKind::UnexpectedEof {
                Ok(false)
            } else {
                Err(why)
            }
        }
    }
}

// Writes the line of an answer that ends at an offset of its buffer.
fn said(rt: &impl Print, answer: &[u8], end: usize, line: &mut [u8]) -> io::Result<()> {
    let n = test_frames::front(end, answer);
    let end = test_frames::line(&answer[..n], line);
    let n = test_frames::front(end, line);
    rt.write_all(&line[..n])
}

// Reads a question and writes its answer; says whether there may be another.
fn turn(
    rt: &impl Print,
    input: &mut impl Read,
    payload: &mut [u8],
    answer: &mut [u8],
    line: &mut [u8],
) -> io::Result<bool> {
    let mut header = [0u8; 5];
    if !filled(input, &mut header, 5)? {
        return Ok(false);
    }
    let tag = header[0];
    let length = test_frames::four(&header[1..]);
    if !filled(input, payload, length)? {
        return Ok(false);
    }
    let n = test_frames::front(length, payload);
    let end = texts::answer(tag, &payload[..n], answer);
    said(rt, answer, end, line)?;
    Ok(true)
}

// Lends the buffers: a payload of 65,536 bytes and some more, an answer that has three bytes for each of them, and its line.
// Nothing says that the input ends, so the turns are counted, and are more than any run has.
fn main(rt: HostRuntime) -> io::Result<()> {
    let mut payload = [0u8; 65792];
    let mut answer = [0u8; 197376];
    let mut line = [0u8; 394753];
    let mut input = rt.stdin();
    for _ in 0..u32::MAX {
        if !turn(&rt, &mut input, &mut payload, &mut answer, &mut line)? {
            break;
        }
    }
    Ok(())
}
