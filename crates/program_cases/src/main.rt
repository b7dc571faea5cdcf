// Worked cases from lines of text on standard input, a line of output for each, which the gate
// compares with what a second implementation says. A line begins with the call that it is for.
#![tactic(auto)]

mod frame_cases;
mod session_cases;
mod text;
mod update_cases;
mod value_cases;

use text::part;

// The bytes of the `n`th field of a line, put into a buffer; as many as there is room for.
fn bytes_in<'a>(line: &[u8], n: usize, buffer: &'a mut [u8]) -> &'a mut [u8] {
    let end = text::expand(part(line, b'\t', n), buffer);
    &mut buffer[..end]
}

fn number_in(line: &[u8], n: usize) -> usize {
    text::decimal(part(line, b'\t', n))
}

// As many bytes of a buffer as the `n`th field of a line says.
fn room_in<'a>(line: &[u8], n: usize, buffer: &'a mut [u8]) -> &'a mut [u8] {
    let room = number_in(line, n).min(buffer.len());
    &mut buffer[..room]
}

// v: a value read alone.
fn print_value(line: &[u8]) {
    let mut buffer = [0u8; 1024];
    text::print(part(line, b'\t', 0));
    let bytes = bytes_in(line, 0, &mut buffer);
    value_cases::print_value(bytes);
}

// f: a frame read.
fn print_frame(line: &[u8]) {
    let mut buffer = [0u8; 61440];
    let bytes = bytes_in(line, 0, &mut buffer);
    frame_cases::print_read(bytes);
}

// w: a record, the bytes of its places, and the room of the lent buffer, to be written as a frame.
fn print_written(line: &[u8]) {
    let mut record_buffer = [0u8; 256];
    let mut bytes_buffer = [0u8; 61440];
    let mut out_buffer = [0u8; 61440];
    let record = bytes_in(line, 0, &mut record_buffer);
    let bytes = bytes_in(line, 1, &mut bytes_buffer);
    let out = room_in(line, 2, &mut out_buffer);
    frame_cases::print_write(record, bytes, out);
}

// u: a tuple, a list, an index base and the room of each lent buffer: the update, its undo list, and
// both by one press.
fn print_updated(line: &[u8]) {
    let mut tuple_buffer = [0u8; 40960];
    let mut list_buffer = [0u8; 40960];
    let mut out_buffer = [0u8; 40960];
    let mut undo_buffer = [0u8; 40960];
    let tuple = bytes_in(line, 0, &mut tuple_buffer);
    let list = bytes_in(line, 1, &mut list_buffer);
    let base = number_in(line, 2) as u64;
    let out = room_in(line, 3, &mut out_buffer);
    let undo = room_in(line, 3, &mut undo_buffer);
    text::print(b"u");
    update_cases::print_update(tuple, list, base, out);
    update_cases::print_press(tuple, list, base, out, undo);
}

// p: a tuple, a list, an index base and the rooms of the two lent buffers: a press.
fn print_pressed(line: &[u8]) {
    let mut tuple_buffer = [0u8; 40960];
    let mut list_buffer = [0u8; 40960];
    let mut out_buffer = [0u8; 40960];
    let mut undo_buffer = [0u8; 40960];
    let tuple = bytes_in(line, 0, &mut tuple_buffer);
    let list = bytes_in(line, 1, &mut list_buffer);
    let base = number_in(line, 2) as u64;
    let out = room_in(line, 3, &mut out_buffer);
    let undo = room_in(line, 4, &mut undo_buffer);
    text::print(b"p");
    update_cases::print_press(tuple, list, base, out, undo);
}

// l: the listing of bytes, frames one after the other.
fn print_listing(line: &[u8]) {
    let mut buffer = [0u8; 69632];
    let mut out = [0u8; 65536];
    let bytes = bytes_in(line, 0, &mut buffer);
    let length = frame_listing::list(bytes, &mut out);
    text::print_text(&out, length);
}

// s: the carry buffer's length, the bytes at its start, those to feed, a session, and the steps.
// The rest of the carry buffer holds 5a in every byte before it is lent.
fn print_fed(line: &[u8]) {
    let mut carry_buffer = [0x5au8; 61440];
    let mut bytes_buffer = [0u8; 61440];
    text::expand(part(line, b'\t', 1), &mut carry_buffer);
    let carry = room_in(line, 0, &mut carry_buffer);
    let bytes = bytes_in(line, 2, &mut bytes_buffer);
    let session = session_cases::session_in(part(line, b'\t', 3));
    session_cases::print_steps(session, part(line, b'\t', 4), bytes, carry);
}

// A letter for the call, a tab, and its fields.
fn print_line(line: &[u8]) {
    if line.len() < 2 {
        return;
    }
    let call = line[0];
    let fields = &line[2..];
    match call {
        b'v' => print_value(fields),
        b'f' => print_frame(fields),
        b'w' => print_written(fields),
        b'u' => print_updated(fields),
        b'p' => print_pressed(fields),
        b'l' => print_listing(fields),
        b's' => print_fed(fields),
        _ => text::print(b"?\n"),
    }
}

fn print_lines(input: &[u8]) {
    for line in input.split(|b| *b == b'\n') {
        print_line(line);
    }
}

fn main() {
    let mut input = [0u8; 655360];
    let n = io::read_full(0, &mut input);
    value_cases::print_first_bytes();
    print_lines(&input[0..n]);
}
