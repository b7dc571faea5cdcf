// The fault program: the first frame on standard input that is refused, why, and the bytes around the place that spoils it.
#![tactic(auto)]

// The file descriptor of standard output.
const STDOUT: i32 = 1;

fn print_report(input: &[u8], out: &mut [u8]) {
    let length = frame_fault::report(input, out);
    io::write_all(STDOUT, &out[0..length]);
}

// The input has room for a byte more than is read, by which the report sees that it is too long.
fn main() {
    let mut input = [0u8; 65537];
    let mut out = [0u8; frame_fault::ROOM];
    let n = io::read_full(0, &mut input);
    print_report(&input[0..n], &mut out);
}
