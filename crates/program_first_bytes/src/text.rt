// Text and numbers printed.

// The file descriptor of standard output.
const STDOUT: i32 = 1;

pub(crate) fn print(text: &[u8]) {
    io::write_all(STDOUT, text);
}

// In so many hexadecimal digits, more where the number needs them.
pub(crate) fn print_hex(n: u16, digits: usize) {
    io::print_hex(STDOUT, u64::from(n), digits);
}

pub(crate) fn print_decimal(n: usize) {
    io::print_decimal(STDOUT, n as u64);
}
