// The listing program: the frames on standard input, a line for each, and how the input ended.
#![tactic(auto)]

// The file descriptor of standard output.
const STDOUT: i32 = 1;

fn print_listing(input: &[u8], out: &mut [u8]) {
    let length = frame_listing::list(input, out);
    io::write_all(STDOUT, &out[0..length]);
}

// The input has room for a byte more than is listed, by which the listing sees that it is too long.
fn main() {
    let mut input = [0u8; 65537];
    let mut out = [0u8; frame_listing::ROOM];
    let n = io::read_full(0, &mut input);
    print_listing(&input[0..n], &mut out);
}
