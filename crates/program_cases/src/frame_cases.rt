// A frame read, and a record written.
ghost use Rattle.std.specs.Prelude.{◌≤◌};

use crate::text::{print, print_buffer, print_number};
use frames::{Frame, Place};
use msgpack_values::OptionalNumber;

pub(crate) fn print_optional(n: OptionalNumber) {
    if n.present {
        print_number(n.value as usize);
    } else {
        print(b"\t-");
    }
}

fn print_place(place: Place) {
    if place.present {
        print_number(place.start);
        print(b",");
        crate::text::print_plain(place.length);
    } else {
        print(b"\t-");
    }
}

fn print_numbers(frame: Frame) {
    print_number(frame.code as usize);
    let numbers = [
        frame.sync,
        frame.schema_version,
        frame.space,
        frame.index,
        frame.limit,
        frame.offset,
        frame.iterator,
        frame.index_base,
    ];
    for n in numbers {
        print_optional(n);
    }
}

fn print_places(frame: Frame) {
    let places = [
        frame.key,
        frame.tuple,
        frame.function,
        frame.user,
        frame.expression,
        frame.ops,
        frame.data,
        frame.error,
    ];
    for place in places {
        print_place(place);
    }
}

pub(crate) fn print_record(frame: Frame) {
    print_numbers(frame);
    print_places(frame);
}

pub(crate) fn print_read(bytes: &[u8]) {
    let answer = frame_reading::read_frame(bytes);
    print(b"f");
    print_number(answer.number as usize);
    print_number(answer.length);
    print_record(answer.frame);
    print_optional(answer.place);
    print(b"\n");
}

fn number_in(record: &[u8], at: usize, width: usize) -> u64 {
    msgpack_numbers::number_at(record, at, width).unwrap_or(0)
}

// A byte that says whether the number is there, and its eight bytes.
fn optional_in(record: &[u8], at: usize) -> OptionalNumber
    requires { at ≤ 1000 }
{
    OptionalNumber {
        present: number_in(record, at, 1) == 1,
        value: number_in(record, at + 1, 8),
    }
}

fn place_in(record: &[u8], at: usize) -> Place
    requires { at ≤ 1000 }
{
    Place {
        present: number_in(record, at, 1) == 1,
        start: number_in(record, at + 1, 8) as usize,
        length: number_in(record, at + 9, 8) as usize,
    }
}

// The record of a line: the code, the numbers, the places, each of a fixed width.
fn frame_in(record: &[u8]) -> Frame {
    Frame {
        code: number_in(record, 0, 8),
        sync: optional_in(record, 8),
        schema_version: optional_in(record, 17),
        space: optional_in(record, 26),
        index: optional_in(record, 35),
        limit: optional_in(record, 44),
        offset: optional_in(record, 53),
        iterator: optional_in(record, 62),
        index_base: optional_in(record, 71),
        key: place_in(record, 80),
        tuple: place_in(record, 97),
        function: place_in(record, 114),
        user: place_in(record, 131),
        expression: place_in(record, 148),
        ops: place_in(record, 165),
        data: place_in(record, 182),
        error: place_in(record, 199),
    }
}

// The buffer holds 5a in every byte before it is lent.
pub(crate) fn print_write(record: &[u8], bytes: &[u8], out: &mut [u8]) {
    out.fill(0x5a);
    let written = frame_writing::write_frame(frame_in(record), bytes, out);
    print(b"w");
    print_number(written.number as usize);
    print_number(written.length);
    print_buffer(out, written.length);
    print(b"\n");
}
