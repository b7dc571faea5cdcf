// Lines of text: fields of hexadecimal digits taken apart, numbers and bytes printed.
ghost use Rattle.std.specs.Prelude.{◌<◌, ◌≤◌, length, IfSome};

// The file descriptor of standard output.
pub(crate) const STDOUT: i32 = 1;

pub(crate) fn print(text: &[u8]) {
    io::write_all(STDOUT, text);
}

// The text in the first n bytes of a buffer.
pub(crate) fn print_text(text: &[u8], n: usize) {
    if n <= text.len() {
        print(&text[..n]);
    }
}

// A tab and a number.
pub(crate) fn print_number(n: usize) {
    print(b"\t");
    io::print_decimal(STDOUT, n as u64);
}

pub(crate) fn print_plain(n: usize) {
    io::print_decimal(STDOUT, n as u64);
}

// The part of the text between the `n`th `b` and the next one; nothing, where there are fewer.
pub(crate) fn part(text: &[u8], b: u8, n: usize) -> &[u8] {
    text.split(|c| *c == b).nth(n).unwrap_or(&[])
}

fn digit(b: u8) -> u8
    ensures { result < 16 }
{
    match b {
        b'0'..=b'9' => b - b'0',
        b'a'..=b'f' => b - b'a' + 10,
        _ => 0,
    }
}

// The decimal number at the front of a text, up to the first byte that is no digit of it, or that would make it
// too large.
pub(crate) fn decimal(text: &[u8]) -> usize {
    let mut n: usize = 0;
    for b in text {
        if !b.is_ascii_digit() {
            return n;
        }
        let digit = usize::from(*b - b'0');
        if (usize::MAX - digit) / 10 < n {
            return n;
        }
        // Ten times n.
        n = (n << 3) + (n << 1) + digit;
    }
    n
}

// A byte of a field, how often it stands there, and the rest of the field.
#[derive(Clone, Copy)]
struct Piece<'a> {
    byte: u8,
    times: usize,
    rest: &'a [u8],
}

// Two digits at the front, and where `*N;` follows them, N times.
fn first_piece(text: &[u8]) -> Option<Piece<'_>>
    ensures { IfSome result (λ piece. length piece.rest.now < length text.now) }
{
    let (high, rest) = text.split_first()?;
    let (low, rest) = rest.split_first()?;
    let byte = (digit(*high) << 4) + digit(*low);
    let Some((b'*', count)) = rest.split_first() else {
        return Some(Piece {
            byte,
            times: 1,
            rest,
        });
    };
    let end = count.iter().position(|b| *b == b';');
    let rest = end.map_or(&[][..], |i| &count[i + 1..]);
    Some(Piece {
        byte,
        times: decimal(count),
        rest,
    })
}

// `times` times `b` from `at` on, as far as there is room; the place after them.
fn fill(out: &mut [u8], at: usize, b: u8, times: usize) -> usize
    requires { at ≤ length out.old }
    ensures { result ≤ length out.new }
{
    let end = at + times.min(out.len() - at);
    out[at..end].fill(b);
    end
}

// The bytes that a field stands for, as many as there is room for.
pub(crate) fn expand(text: &[u8], out: &mut [u8]) -> usize
    ensures { result ≤ length out.new }
{
    let mut n = 0;
    let mut rest = text;
    while let Some(piece) = first_piece(rest) {
        n = fill(out, n, piece.byte, piece.times);
        rest = piece.rest;
    }
    n
}

// The Adler-32 sum of bytes.
fn adler(s: &[u8]) -> u64 {
    let mut low: u64 = 1;
    let mut high: u64 = 0;
    for b in s {
        low = (low + u64::from(*b)) % 65_521;
        high = (high + low) % 65_521;
    }
    (high << 16) + low
}

// The first `n` bytes, at most 48.
fn print_front(s: &[u8], n: usize) {
    for b in s.iter().take(n.min(48)) {
        io::print_hex(STDOUT, u64::from(*b), 2);
    }
}

// A tab and the sum of bytes.
pub(crate) fn print_sum(s: &[u8]) {
    print(b"\t");
    io::print_hex(STDOUT, adler(s), 8);
}

// A lent buffer afterwards: the sum of it all, and the first of the `n` bytes written.
pub(crate) fn print_buffer(out: &[u8], n: usize) {
    print_sum(out);
    print(b"\t");
    print_front(out, n);
}
