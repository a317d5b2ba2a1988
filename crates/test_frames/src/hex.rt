// A line of lowercase hexadecimal digits.
ghost use Rattle.std.specs.Prelude.{◌≡◌, ◌∷◌, [], ◌<◌};
ghost use Rattle.buffer.specs.Put.{Put};
ghost use Rattle.test_frames.specs.Hex.{digit_of, hex_of, hex_line};

// Puts the two digits of each byte and a newline at the line's front.
pub fn line(bytes: &[u8], line: &mut [u8]) -> usize
    ensures { Put line.old 0 (hex_line bytes.now) line.new result }
{
    let mut end = 0;
    for &byte in bytes {
        end = digits(byte, end, line);
    }
    buffer::put_byte(b'\n', end, line)
}

// Puts a byte's two digits.
fn digits(byte: u8, at: usize, line: &mut [u8]) -> usize
    ensures { Put line.old at (hex_of (byte ∷ [])) line.new result }
{
    let next = buffer::put_byte(digit(byte / 16), at, line);
    buffer::put_byte(digit(byte % 16), next, line)
}

// The digit of a number below 16.
fn digit(n: u8) -> u8
    requires { n < 16 }
    ensures { result ≡ digit_of n }
{
    if n < 10 { 48 + n } else { 87 + n }
}
