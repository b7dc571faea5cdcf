// The listing: a line for each frame of the input, and how the input ended.
#![tactic(auto)]

ghost use Rattle.std.specs.Prelude.{◌≡◌, ◌++◌, ◌+◌, ◌*◌, ◌<◌, ◌≤◌, length, take, drop};
ghost use Rattle.msgpack_writing.specs.Put.{put, Writes};
ghost use Rattle.frame_listing_fields.specs.Steps.{ended};
ghost use Rattle.frame_listing.specs.Listing.{max_input, room, frame_line, lines, listing};
ghost use Rattle.frame_listing.specs.Steps.{First};

use frame_listing_fields::{write_kind, write_number, write_sync};
use msgpack_values::OptionalNumber;
use msgpack_writing::write_bytes;

// Input longer than this is not listed.
pub const MOST: usize = 65_536;

// The lines of any input have room in this.
pub const ROOM: usize = 22 * MOST;

// The first line.
const HEADING: &[u8] = b"frame\tkind\tsync\tbytes\n";

// The line of a frame: its number, kind, sync and bytes.
fn write_frame(out: &mut [u8], number: u64, code: u64, sync: OptionalNumber, bytes: u64) -> usize
    requires { length (frame_line number code sync bytes) ≤ length out.old }
    ensures { Writes 0 (frame_line number code sync bytes) result out.old out.new }
{
    let mut at = write_number(out, 0, number, b'\t');
    at = write_kind(out, at, code);
    at = write_bytes(out, at, b"\t");
    at = write_sync(out, at, sync);
    write_number(out, at, bytes, b'\n')
}

// The last line, whose first two fields are given with the tabs after them.
fn write_last(out: &mut [u8], how: &[u8], n: u64) -> usize
    requires { length (how.now ++ ended n 10) ≤ length out.old }
    ensures { Writes 0 (how.now ++ ended n 10) result out.old out.new }
{
    let at = write_bytes(out, 0, how);
    write_number(out, at, n, b'\n')
}

// How long a line is, and how many bytes of the input it is for: none where it is the last.
// Stays: 0 for the last one: with an Option, `lay` would have to be told too that a frame's bytes are not 0.
#[derive(Clone, Copy)]
struct Line {
    length: usize,
    bytes: usize,
}

// The line for what stands first, at the front of `line`.
fn first_line(left: &[u8], number: u64, line: &mut [u8]) -> Line
    requires { (length left.now ≤ max_input) × (number ≤ max_input + 1) × (length line.old ≡ 64) }
    ensures { First number left.now result line.new }
{
    if left.is_empty() {
        return Line {
            length: write_last(line, b"end\tclean\t", 0),
            bytes: 0,
        };
    }
    let answer = frame_reading::read_frame(left);
    match answer.number {
        0 => {
            let frame = answer.frame;
            let bytes = answer.length;
            let length = write_frame(line, number, frame.code, frame.sync, bytes as u64);
            Line { length, bytes }
        }
        1 => Line {
            length: write_last(line, b"end\tincomplete\t", left.len() as u64),
            bytes: 0,
        },
        n => Line {
            length: write_last(line, b"end\trefused\t", u64::from(n)),
            bytes: 0,
        },
    }
}

// The lines of input that is not too long, from `from` on, as far as they have room; how long they are.
fn lay(input: &[u8], out: &mut [u8], from: usize) -> usize
    requires { (length input.now ≤ max_input) × (from ≤ max_input) }
    ensures { (result ≡ length (lines 0 1 input.now)) × ((result ≤ 21 * max_input + 23)
        × (from + result ≤ length out.old → out.new ≡ put from (lines 0 1 input.now) out.old)) }
{
    let mut line = [0u8; 64];
    let mut to: usize = 0;
    let mut at: usize = 0;
    let mut number: u64 = 1;
    // Stays: a loop with a cursor: a frame's length is known when it is read, so that no range or iterator steps from one to the next.
    loop {
        let Line { length, bytes } = first_line(&input[at..], number, &mut line);
        write_bytes(out, from + to, &line[..length]);
        to += length;
        if bytes == 0 {
            return to;
        }
        at += bytes;
        number += 1;
    }
}

// The listing, at the front of `out`: how long it is; 0, and nothing written, where it has no room.
pub fn list(input: &[u8], out: &mut [u8]) -> usize
    ensures value { Writes 0 (listing input.now) result out.old out.new }
    ensures input_len_bound { (length (listing input.now) ≤ room) × (result ≤ length out.old) }
{
    if MOST < input.len() {
        return write_bytes(out, 0, b"frame\tkind\tsync\tbytes\nend\tlong\t65536\n");
    }
    let length = lay(input, &mut [], 0);
    if out.len() < HEADING.len() + length {
        return 0;
    }
    let from = write_bytes(out, 0, HEADING);
    from + lay(input, out, from)
}
