// Shortest numbers, the shortest headers of strings, arrays and maps, and copies, each written into the rest of a lent buffer.
#![tactic(auto)]

ghost use Rattle.std.specs.Prelude.{◌≡◌, ◌++◌, ◌+◌, ◌^◌, ◌<◌, ◌≤◌, length, drop, [], ◌∷◌};
ghost use Rattle.msgpack_writing.specs.Forms.{tagged, long_form, unsigned_form, negative_form, string_header, count_header, array_header, map_header};
ghost use Rattle.msgpack_writing.specs.Put.{Writes};

// A first byte, and the number of which the `width` low bytes follow.
#[derive(Clone, Copy)]
struct Head {
    tag: u8,
    number: u64,
    width: usize,
}

// From the last byte to the first, at the front of `out`, since each byte is what the later ones leave of the number.
fn put_tagged(out: &mut [u8], tag: u8, n: u64, width: usize)
    requires { width < length out.old }
    ensures { out.new ≡ tagged tag width n ++ drop (width + 1) out.old }
{
    let mut high = n;
    for i in (0..width).rev() {
        out[i + 1] = (high % 256) as u8;
        high >>= 8;
    }
    out[0] = tag;
}

// Stays: a buffer and a place in it, here and in all that write pieces: a struct that holds the `&mut` needs in each contract one
// clause more, that it holds the same reference still.
// The tests subtract, since a sum of place and width could wrap.
pub fn write_tagged(out: &mut [u8], at: usize, tag: u8, n: u64, width: usize) -> usize
    ensures { Writes at (tagged tag width n) result out.old out.new }
{
    if out.len() <= at {
        return at;
    }
    if out.len() - at <= width {
        return at;
    }
    put_tagged(&mut out[at..], tag, n, width);
    at + (width + 1)
}

fn write_head(out: &mut [u8], at: usize, h: Head) -> usize
    ensures { Writes at (tagged h.tag h.width h.number) result out.old out.new }
{
    write_tagged(out, at, h.tag, h.number, h.width)
}

// A form whose first byte says all.
fn short_head(tag: u8) -> Head
    ensures { tagged result.tag result.width result.number ≡ tag ∷ [] }
{
    Head {
        tag,
        number: 0,
        width: 0,
    }
}

// As many bytes of `number` as hold `n`: the first bytes of these forms follow one another, from `first` on.
fn long_head(first: u8, n: u64, number: u64) -> Head
    requires { first < 0xfd }
    ensures { tagged result.tag result.width result.number ≡ long_form first n number }
{
    let (step, width) = match n {
        0..=0xff => (0, 1),
        0x100..=0xffff => (1, 2),
        0x1_0000..=0xffff_ffff => (2, 4),
        _ => (3, 8),
    };
    Head {
        tag: first + step,
        number,
        width,
    }
}

fn unsigned_head(n: u64) -> Head
    ensures { tagged result.tag result.width result.number ≡ unsigned_form n }
{
    if n < 128 {
        short_head(n as u8)
    } else {
        long_head(0xcc, n, n)
    }
}

pub fn write_unsigned(out: &mut [u8], at: usize, n: u64) -> usize
    ensures { Writes at (unsigned_form n) result out.old out.new }
{
    write_head(out, at, unsigned_head(n))
}

// How many bytes `write_unsigned` writes where there is room, for whoever counts first.
pub fn unsigned_length(n: u64) -> usize
    ensures { result ≡ length (unsigned_form n) }
{
    unsigned_head(n).width + 1
}

// The number -1 - m, in two's complement: all bits of m turned, in as many bytes as hold m + m, since the highest is the sign.
fn negative_head(m: u64) -> Head
    requires { m < 2 ^ 63 }
    ensures { tagged result.tag result.width result.number ≡ negative_form m }
{
    if m < 32 {
        short_head(255 - m as u8)
    } else {
        long_head(0xd0, m + m, u64::MAX - m)
    }
}

// The number -1 - m; nothing where it is below -2^63.
pub fn write_negative(out: &mut [u8], at: usize, m: u64) -> usize
    ensures { Writes at (negative_form m) result out.old out.new }
{
    if 0x8000_0000_0000_0000 <= m {
        return at;
    }
    write_head(out, at, negative_head(m))
}

fn string_head(n: u32) -> Head
    ensures { tagged result.tag result.width result.number ≡ string_header n }
{
    if n < 32 {
        short_head(0xa0 + n as u8)
    } else {
        let number = u64::from(n);
        long_head(0xd9, number, number)
    }
}

// What stands before a string of n bytes.
pub fn write_string_header(out: &mut [u8], at: usize, n: u32) -> usize
    ensures { Writes at (string_header n) result out.old out.new }
{
    write_head(out, at, string_head(n))
}

// How many bytes `write_string_header` writes where there is room.
pub fn string_header_length(n: u32) -> usize
    ensures { result ≡ length (string_header n) }
{
    string_head(n).width + 1
}

// A count of an array or a map: the first bytes of its short forms begin at `short`, those of its longer ones at `long`.
fn count_head(short: u8, long: u8, n: u32) -> Head
    requires { (short ≤ 0xf0) × (long ≤ 0xfe) }
    ensures { tagged result.tag result.width result.number ≡ count_header short long n }
{
    let number = u64::from(n);
    match n {
        0..=15 => short_head(short + n as u8),
        16..=0xffff => Head {
            tag: long,
            number,
            width: 2,
        },
        _ => Head {
            tag: long + 1,
            number,
            width: 4,
        },
    }
}

// What stands before the n values of an array.
pub fn write_array_header(out: &mut [u8], at: usize, n: u32) -> usize
    ensures { Writes at (array_header n) result out.old out.new }
{
    write_head(out, at, count_head(0x90, 0xdc, n))
}

// How many bytes `write_array_header` writes where there is room.
pub fn array_header_length(n: u32) -> usize
    ensures { result ≡ length (array_header n) }
{
    count_head(0x90, 0xdc, n).width + 1
}

// What stands before the n entries of a map.
pub fn write_map_header(out: &mut [u8], at: usize, n: u32) -> usize
    ensures { Writes at (map_header n) result out.old out.new }
{
    write_head(out, at, count_head(0x80, 0xde, n))
}

// All of `bytes`, at the front of `out`.
// Stays: no copy_from_slice, which calls memmove; the archive takes memcpy and memset from outside, and nothing else.
fn put_bytes(out: &mut [u8], bytes: &[u8])
    requires { length bytes.now ≤ length out.old }
    ensures { out.new ≡ bytes.now ++ drop (length bytes.now) out.old }
{
    for i in 0..bytes.len() {
        out[i] = bytes[i];
    }
}

// A copy of `bytes`.
pub fn write_bytes(out: &mut [u8], at: usize, bytes: &[u8]) -> usize
    ensures { Writes at bytes.now result out.old out.new }
{
    if out.len() < at {
        return at;
    }
    if out.len() - at < bytes.len() {
        return at;
    }
    put_bytes(&mut out[at..], bytes);
    at + bytes.len()
}
