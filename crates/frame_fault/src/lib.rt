// The report on the first frame of the input that is refused: which frame, why, where, and the bytes around the place.
#![tactic(auto)]

ghost use Rattle.std.specs.Prelude.{◌≡◌, ◌∷◌, ◌++◌, ◌+◌, ◌≤◌, length, take};
ghost use Rattle.msgpack_writing.specs.Put.{Writes};
ghost use Rattle.frame_listing_fields.specs.Text.{text, decimal};
ghost use Rattle.frame_fault_fields.specs.Dump.{dump};
ghost use Rattle.frame_fault_fields.specs.Steps.{Lays};
ghost use Rattle.frame_listing.specs.Listing.{max_input};
ghost use Rattle.frame_fault.specs.Fault.{frame_line, refused_line, place_line, own, fault, report_from, report, room};

use frame_fault_fields::{write_dump, write_words};
use frame_listing_fields::write_number;
use msgpack_values::OptionalNumber;
use msgpack_writing::write_bytes;

// Any report has room in this.
pub const ROOM: usize = 600;

// A text, a number, the byte after it, and a text more.
fn write_counted(out: &mut [u8], at: usize, before: &[u8], n: u64, end: u8, after: &[u8]) -> usize
    ensures { Lays out.old at (before.now ++ (decimal n ++ (end ∷ after.now))) out.new result }
{
    let mut to = write_bytes(out, at, before);
    to = write_number(out, to, n, end);
    write_bytes(out, to, after)
}

// Which frame, and where it begins.
fn write_frame(out: &mut [u8], at: usize, frame: u64, from: usize) -> usize
    ensures { Lays out.old at (frame_line frame from) out.new result }
{
    let to = write_counted(out, at, b"frame    ", frame, b',', b" from byte ");
    write_counted(out, to, b"", from as u64, b' ', b"of the input\n")
}

// Why it is refused.
fn write_refused(out: &mut [u8], at: usize, number: u32) -> usize
    ensures { Lays out.old at (refused_line number) out.new result }
{
    let mut to = write_counted(out, at, b"refused  ", u64::from(number), b',', b" ");
    to = write_words(out, to, number);
    write_bytes(out, to, b"\n")
}

// Where it broke, after `from` bytes of the input before the frame.
fn write_place(out: &mut [u8], at: usize, from: usize, place: OptionalNumber) -> usize
    requires { from + place.value ≤ max_input }
    ensures { Lays out.old at (place_line from place) out.new result }
{
    if place.present {
        let to = write_counted(out, at, b"place    ", place.value, b',', b" byte ");
        return write_counted(
            out,
            to,
            b"",
            from as u64 + place.value,
            b' ',
            b"of the input\n",
        );
    }
    write_bytes(out, at, b"place    none\n")
}

// How many of the bytes from its first on are the frame's own.
fn own_length(left: &[u8]) -> usize
    ensures { (result ≤ length left.now) × (take result left.now ≡ own left.now) }
{
    match frame_reading::read_size(left) {
        Ok((size, from)) => (from + size).min(left.len()),
        Err(_) => left.len(),
    }
}

// The bytes around the place, of those that are the frame's own.
fn write_own(out: &mut [u8], at: usize, left: &[u8], place: OptionalNumber) -> usize
    ensures { Lays out.old at (dump (own left.now) place ++ text "\n") out.new result }
{
    let end = own_length(left);
    let to = write_dump(out, at, &left[..end], place);
    write_bytes(out, to, b"\n")
}

// The report on a frame that is refused, after `from` bytes of the input.
fn write_fault(
    out: &mut [u8],
    frame: u64,
    from: usize,
    left: &[u8],
    number: u32,
    place: OptionalNumber,
) -> usize
    requires { from + place.value ≤ max_input }
    ensures { Lays out.old 0 (fault frame from left.now number place) out.new result }
{
    let mut to = write_frame(out, 0, frame, from);
    to = write_refused(out, to, number);
    to = write_place(out, to, from, place);
    write_own(out, to, left, place)
}

// The report on input that is not too long, where `out` has room for it.
fn compose(input: &[u8], out: &mut [u8]) -> usize
    requires { length input.now ≤ max_input }
    ensures { (length (report_from 0 0 0 input.now) ≤ room) × Lays out.old 0 (report_from 0 0 0 input.now) out.new result }
{
    let mut at: usize = 0;
    let mut frames: u64 = 0;
    // Stays: a loop with a cursor, as in `frame_listing`.
    while at < input.len() {
        let answer = frame_reading::read_frame(&input[at..]);
        if answer.number != 0 {
            return write_fault(
                out,
                frames + 1,
                at,
                &input[at..],
                answer.number,
                answer.place,
            );
        }
        at += answer.length;
        frames += 1;
    }
    write_counted(out, 0, b"frames   ", frames, b',', b" none refused\n")
}

// The report, at the front of `out`: how long it is; 0, and nothing written, where it has no room.
pub fn report(input: &[u8], out: &mut [u8]) -> usize
    ensures value { Writes 0 (report input.now) result out.old out.new }
    ensures input_len_bound { (length (report input.now) ≤ room) × (result ≤ length out.old) }
{
    if frame_listing::MOST < input.len() {
        return write_bytes(out, 0, b"input    over 65,536 bytes, not read\n");
    }
    let mut text = [0u8; ROOM];
    let length = compose(input, &mut text);
    write_bytes(out, 0, &text[..length])
}
