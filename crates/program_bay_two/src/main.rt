// The story of bay two on its own bytes: one press of the wash-mode button, an update frame with
// `^`, arrives twice; the record after each, the undo lists beside them, and both presses taken
// back. One call does a press: record and undo list, or neither; one press is refused.
#![tactic(auto)]

use update_parts::bytes_of;

// The file descriptor of standard output.
const STDOUT: i32 = 1;

const UPDATE: u64 = 0x04;

// Why a press stays out: the frame is refused, with a number; it is no update; the call refuses it, with a number,
// at an operation.
#[derive(Clone, Copy)]
enum StayedOut {
    NoFrame(u32),
    NoUpdate,
    Refused(u32, u32),
}

fn print(text: &[u8]) {
    io::write_all(STDOUT, text);
}

// A name, then the bytes in hex.
fn print_bytes(name: &[u8], bytes: &[u8]) {
    print(name);
    for b in bytes {
        print(b" ");
        io::print_hex(STDOUT, *b as u64, 2);
    }
    print(b"\n");
}

// Words, then a refusal's number.
fn print_number(words: &[u8], number: u32) {
    print(words);
    io::print_decimal(STDOUT, number as u64);
}

// Stays: no Display, since the crate `io` prints bytes to a descriptor and needs no runtime.
fn print_refusal(why: StayedOut) {
    match why {
        StayedOut::NoFrame(n) => print_number(b"it stays out: no frame, refused with ", n),
        StayedOut::NoUpdate => print(b"it stays out: the frame is no update"),
        StayedOut::Refused(n, i) => {
            print_number(b"it stays out: the press is refused with ", n);
            print_number(b" at operation ", i);
        }
    }
    print(b"\n");
}

// The frame arrives: its list is carried out on the record, and beside the new record the box
// writes what takes it back, with both lengths; or nothing is written, and the record stays what it is.
fn arrive(
    frame: &[u8],
    record: &[u8],
    after: &mut [u8],
    undo: &mut [u8],
) -> Result<(usize, usize), StayedOut> {
    let read = frame_reading::read_frame(frame);
    if read.number != 0 {
        return Err(StayedOut::NoFrame(read.number));
    }
    if read.frame.code != UPDATE {
        return Err(StayedOut::NoUpdate);
    }
    let list = frame_fields::view_of(frame, read.frame.tuple);
    let pressed = updates::press(record, list, read.frame.index_base.value, after, undo);
    if pressed.number != 0 {
        return Err(StayedOut::Refused(pressed.number, pressed.operation));
    }
    Ok((pressed.length, pressed.undo_length))
}

// The presses, and both taken back in the turn opposite to theirs; the record is in `last` then.
fn press_twice(frame: &[u8], record: &[u8], last: &mut [u8]) -> Result<usize, StayedOut> {
    let mut once = [0u8; 64];
    let mut undo_1 = [0u8; 64];
    let (n, m) = arrive(frame, record, &mut once, &mut undo_1)?;
    let after_1 = bytes_of(&once, 0, n);
    let list_1 = bytes_of(&undo_1, 0, m);
    print_bytes(b"after one press    ", after_1);
    print_bytes(b"  its undo list    ", list_1);
    press_again(frame, after_1, list_1, last)
}

fn press_again(
    frame: &[u8],
    record: &[u8],
    list_1: &[u8],
    last: &mut [u8],
) -> Result<usize, StayedOut> {
    let mut twice = [0u8; 64];
    let mut undo_2 = [0u8; 64];
    let (n, m) = arrive(frame, record, &mut twice, &mut undo_2)?;
    let after_2 = bytes_of(&twice, 0, n);
    let list_2 = bytes_of(&undo_2, 0, m);
    print_bytes(b"after the second   ", after_2);
    print_bytes(b"  its undo list    ", list_2);
    Ok(take_back(after_2, list_2, list_1, last))
}

fn take_back(record: &[u8], list_2: &[u8], list_1: &[u8], last: &mut [u8]) -> usize {
    let mut once = [0u8; 64];
    let second = updates::update(record, list_2, 0, &mut once);
    let after_1 = bytes_of(&once, 0, second.length);
    print_bytes(b"second taken back  ", after_1);
    updates::update(after_1, list_1, 0, last).length
}

// A press on a field that is no number: the record stays, and no undo list comes on the pile.
fn press_refused(frame: &[u8], record: &[u8]) {
    let mut after = [0u8; 64];
    let mut undo = [0u8; 64];
    print_bytes(b"the press          ", frame);
    match arrive(frame, record, &mut after, &mut undo) {
        Ok(_) => print(b"it went in\n"),
        Err(why) => print_refusal(why),
    }
    print_bytes(b"the record         ", record);
}

fn main() {
    let frame =
        b"\xce\x00\x00\x00\x16\x82\x00\x04\x01\x07\x84\x10\xcd\x02\x00\x11\x00\x20\x91\x11\x21\x91\x93\xa1\x5e\x02\x01";
    let unsuited =
        b"\xce\x00\x00\x00\x16\x82\x00\x04\x01\x08\x84\x10\xcd\x02\x00\x11\x00\x20\x91\x11\x21\x91\x93\xa1\x5e\x01\x01";
    let record = b"\x93\x11\xa6bay-02\xcd\x00\x05";
    let mut last = [0u8; 64];
    print(b"One press of the wash-mode button, `^ 1` on field 2, arrives twice.\n\n");
    print_bytes(b"the press          ", frame);
    print_bytes(b"the record         ", record);
    let n = press_twice(frame, record, &mut last).unwrap_or_else(|why| {
        print_refusal(why);
        0
    });
    let back = bytes_of(&last, 0, n);
    print_bytes(b"first taken back   ", back);
    if check::same(back, record) {
        print(b"\nThe record is byte for byte as it was before the presses.\n");
    } else {
        print(b"\nThe record differs from what it was before the presses.\n");
    }
    print(b"\nA press on field 1, which is no number:\n\n");
    press_refused(unsuited, record);
}
