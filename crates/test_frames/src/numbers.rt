// Little-endian numbers: at the front of a payload, and put into an answer.
ghost use Rattle.std.specs.Prelude.{◌≡◌, ◌<◌, get_or};
ghost use Rattle.buffer.specs.Put.{Put};
ghost use Rattle.test_frames.specs.Numbers.{low_bytes, number_at};

// The number of the two bytes at the front; 0 stands for a byte that isn't there.
pub fn two(bytes: &[u8]) -> u16
    ensures { result ≡ number_at 2 bytes.now 0 }
{
    (byte(bytes, 0) + 256 * byte(bytes, 1)) as u16
}

// The number of the four bytes at the front; 0 stands for a byte that isn't there.
pub fn four(bytes: &[u8]) -> usize
    ensures { result ≡ number_at 4 bytes.now 0 }
{
    byte(bytes, 0) + 256 * (byte(bytes, 1) + 256 * (byte(bytes, 2) + 256 * byte(bytes, 3)))
}

// The number of the eight bytes at the front; 0 stands for a byte that isn't there.
pub fn eight(bytes: &[u8]) -> usize
    ensures { result ≡ number_at 8 bytes.now 0 }
{
    let high = byte(bytes, 4)
        + 256 * (byte(bytes, 5) + 256 * (byte(bytes, 6) + 256 * byte(bytes, 7)));
    byte(bytes, 0)
        + 256 * (byte(bytes, 1) + 256 * (byte(bytes, 2) + 256 * (byte(bytes, 3) + 256 * high)))
}

// The byte at an offset; 0 past the end.
fn byte(bytes: &[u8], at: usize) -> usize
    ensures { (result ≡ get_or bytes.now at 0) × (result < 256) }
{
    if at < bytes.len() { wide(bytes[at]) } else { 0 }
}

// A byte as a number.
fn wide(byte: u8) -> usize
    ensures { (result ≡ byte) × (result < 256) }
{
    byte as usize
}

// Puts a number's two bytes.
pub fn put_two(n: u16, at: usize, out: &mut [u8]) -> usize
    ensures { Put out.old at (low_bytes 2 n) out.new result }
{
    let at = buffer::put_byte((n % 256) as u8, at, out);
    buffer::put_byte((n / 256 % 256) as u8, at, out)
}

// Puts a number's four bytes.
pub fn put_four(n: u32, at: usize, out: &mut [u8]) -> usize
    ensures { Put out.old at (low_bytes 4 n) out.new result }
{
    let at = buffer::put_byte((n % 256) as u8, at, out);
    let at = buffer::put_byte((n / 256 % 256) as u8, at, out);
    let at = buffer::put_byte((n / 256 / 256 % 256) as u8, at, out);
    buffer::put_byte((n / 256 / 256 / 256 % 256) as u8, at, out)
}

// Puts a number's eight bytes.
pub fn put_eight(n: usize, at: usize, out: &mut [u8]) -> usize
    ensures { Put out.old at (low_bytes 8 n) out.new result }
{
    let at = put_four((n % 4294967296) as u32, at, out);
    put_four((n / 4294967296) as u32, at, out)
}
