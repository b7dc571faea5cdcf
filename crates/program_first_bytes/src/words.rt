// The entries in words: a table for each sixteen.
use crate::text::{print, print_decimal, print_hex};
use msgpack_first_bytes::{Form, Kind};

fn name_of(kind: Kind) -> &'static [u8] {
    match kind {
        Kind::Nil => b"nil",
        Kind::Boolean => b"boolean",
        Kind::Unsigned => b"unsigned",
        Kind::Signed => b"signed",
        Kind::Float32 => b"float 32",
        Kind::Float64 => b"float 64",
        Kind::String => b"string",
        Kind::Bin => b"bin",
        Kind::Ext => b"ext",
    }
}

// Kind, length bytes and fixed payload, which is counted in a unit.
fn print_columns(name: &[u8], width: usize, fixed: usize, unit: &[u8]) {
    print(name);
    print(b" | ");
    print_decimal(width);
    print(b" | ");
    print_decimal(fixed);
    print(unit);
    if fixed != 1 {
        print(b"s");
    }
}

fn print_form(form: Form) {
    match form {
        Form::Unused => print(b"unused | - | -"),
        Form::Scalar(kind, width, fixed) => print_columns(name_of(kind), width, fixed, b" byte"),
        Form::Array(width, fixed) => print_columns(b"array", width, fixed, b" value"),
        Form::Map(width, fixed) => print_columns(b"map", width, fixed, b" value"),
    }
}

fn print_line(b: u8) {
    print(b"| ");
    print_hex(u16::from(b), 2);
    print(b" | ");
    print_form(msgpack_first_bytes::form_of(b));
    print(b" |\n");
}

fn print_head(high: u8) {
    print(b"\n### ");
    print_hex(u16::from(high), 1);
    print(b"0 to ");
    print_hex(u16::from(high), 1);
    print(b"f\n\n| first byte | kind | length bytes | fixed payload |\n|---|---|---|---|\n");
}

fn print_row(high: u8) {
    print_head(high);
    for low in 0..16u8 {
        print_line((high << 4) + low);
    }
}

pub(crate) fn print_rows() {
    for high in 0..16u8 {
        print_row(high);
    }
}
