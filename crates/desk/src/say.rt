// What the program prints. Its first line says what the rest is: `answer`, `refused` or `misused`. The script ./desk goes by that line.
use answers::Refusal;
use reading::lesser;
use record_line::put_escaped;
use std::io;

// How many bytes are quoted at a time. Each is shown as three at most.
const AT_A_TIME: usize = 1024;

// Says that the rest is an answer.
pub(crate) fn answer(rt: &impl Print) -> io::Result<()> {
    plainly(rt, b"answer\n")
}

// Says that the rest is a refusal, in words.
pub(crate) fn refused(rt: &impl Print) -> io::Result<()> {
    plainly(rt, b"refused\ndesk: ")
}

// Says that the rest is what is wrong with the arguments.
pub(crate) fn misused(rt: &impl Print) -> io::Result<()> {
    plainly(rt, b"misused\ndesk: ")
}

// Prints bytes as they are.
pub(crate) fn plainly(rt: &impl Print, bytes: &[u8]) -> io::Result<()> {
    rt.write_all(bytes)
}

// Prints a number.
pub(crate) fn number(rt: &impl Print, n: usize) -> io::Result<()> {
    rt.print(n)
}

// Prints bytes as a line of a listing shows a text, as far as that has 3,072 bytes.
fn shown(rt: &impl Print, bytes: &[u8]) -> io::Result<()> {
    let mut out = [0u8; 3072];
    let n = put_escaped(bytes, 0, &mut out);
    plainly(rt, &out[..n])
}

// Prints any bytes in quotes: those that aren't visible, and '%', as a line of a listing shows them.
pub(crate) fn quoted(rt: &impl Print, bytes: &[u8]) -> io::Result<()> {
    plainly(rt, b"\"")?;
    for some in bytes.chunks(AT_A_TIME) {
        shown(rt, some)?;
    }
    plainly(rt, b"\"")
}

// Answers with what a call wrote at a buffer's front and with more bytes behind it, or with the number of the call's refusal.
pub(crate) fn written(
    rt: &impl Print,
    answer: Result<usize, Refusal>,
    out: &[u8],
    more: &[u8],
) -> io::Result<()> {
    match answer {
        Ok(n) => {
            let n = lesser(n, out.len());
            self::answer(rt)?;
            plainly(rt, &out[..n])?;
            plainly(rt, more)
        }
        Err(why) => {
            refused(rt)?;
            plainly(rt, b"refusal ")?;
            number(rt, why.number() as usize)?;
            plainly(rt, b"\n")
        }
    }
}
