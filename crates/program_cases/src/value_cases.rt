// A value read alone, and the forms of first bytes.
use crate::frame_cases::print_optional;
use crate::text::{STDOUT, print, print_number};
use msgpack_first_bytes::{Form, Kind};
use msgpack_meanings::Meaning;
use msgpack_scalars::Int;

fn kind_name(kind: Kind) -> &'static [u8] {
    match kind {
        Kind::Nil => b"nil",
        Kind::Boolean => b"boolean",
        Kind::Unsigned => b"unsigned",
        Kind::Signed => b"signed",
        Kind::Float32 => b"float32",
        Kind::Float64 => b"float64",
        Kind::String => b"string",
        Kind::Bin => b"bin",
        Kind::Ext => b"ext",
    }
}

// A name and two numbers.
fn print_pair(name: &[u8], a: usize, b: usize) {
    print(name);
    print_number(a);
    print_number(b);
}

fn print_form(form: Form) {
    match form {
        Form::Unused => print(b"unused"),
        Form::Scalar(kind, width, fixed) => print_pair(kind_name(kind), width, fixed),
        Form::Array(width, fixed) => print_pair(b"array", width, fixed),
        Form::Map(width, fixed) => print_pair(b"map", width, fixed),
    }
}

// A line for each first byte: its kind, its length bytes, and what is due by it alone.
pub(crate) fn print_first_bytes() {
    for b in 0..=255u8 {
        io::print_hex(STDOUT, u64::from(b), 2);
        print(b"\t");
        print_form(msgpack_first_bytes::form_of(b));
        print(b"\n");
    }
}

fn print_integer(z: Int) {
    match z {
        Int::FromZero(n) => {
            io::print_decimal(STDOUT, n);
        }
        Int::BelowZero(m) => {
            print(b"-1-");
            io::print_decimal(STDOUT, m);
        }
    }
}

fn print_meaning(meaning: Meaning) {
    match meaning {
        Meaning::Absent => print(b"absent"),
        Meaning::Nil => print(b"nil"),
        Meaning::Boolean(b) => {
            let name: &[u8] = if b { b"true" } else { b"false" };
            print(name);
        }
        Meaning::Integer(z) => {
            print(b"integer\t");
            print_integer(z);
        }
        Meaning::Float32(_, bits) => {
            print(b"float32\t");
            io::print_hex(STDOUT, u64::from(bits), 8);
        }
        Meaning::Float64(_, bits) => {
            print(b"float64\t");
            io::print_hex(STDOUT, bits, 16);
        }
        Meaning::String(start, length) => print_pair(b"string", start, length),
        Meaning::Bin(start, length) => print_pair(b"bin", start, length),
        Meaning::Ext(kind, start, length) => {
            print(b"ext\t");
            io::print_decimal(STDOUT, u64::from(kind));
            print_number(start);
            print_number(length);
        }
        Meaning::Array(start, length) => print_pair(b"array", start, length),
        Meaning::Map(start, length) => print_pair(b"map", start, length),
    }
}

// What the value at the front says: number, length, meaning, and the place that spoils it.
pub(crate) fn print_value(bytes: &[u8]) {
    let answer = msgpack_meanings::read_alone(bytes);
    print_number(answer.number as usize);
    print_number(answer.length);
    print(b"\t");
    print_meaning(answer.meaning);
    print_optional(answer.place);
    print(b"\n");
}
