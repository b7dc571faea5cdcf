// The page of first bytes, docs/FIRST_BYTES.md, made from the entries of the table alone.
#![tactic(auto)]

mod entries;
mod text;
mod words;

use text::print;

fn print_title() {
    print(b"# First bytes\n\nThe table of first bytes as the library has it, ");
    print(b"to be held beside the table 'Overview' of the MessagePack specification.\n");
}

// By what the page is held to the constant.
fn print_source() {
    print(b"`program_first_bytes` makes this page from the constant in ");
    print(b"`crates/msgpack_first_bytes/src/table.rt`. The gate compares what it prints\n");
    print(b"with `crates/program_first_bytes/stdout`, and that file with this page.\n\n");
}

// What the digits of an entry mean.
fn print_digits() {
    print(b"An entry has four hexadecimal digits. The first is the number of length bytes. ");
    print(b"The second is the kind: 0 nil, 1 boolean, 2 unsigned,\n3 signed, 4 float 32, ");
    print(b"5 float 64, 6 string, 7 bin, 8 ext, 9 array, a map, f unused. ");
    print(b"The last two are the fixed payload: the bytes, for\nan array or a map the values, ");
    print(b"that are due by the first byte alone; an ext's type is one of its bytes.\n\n");
}

fn main() {
    print_title();
    print_source();
    print_digits();
    print(b"## Entries\n\n");
    entries::print_grid();
    print(b"\n## In words\n");
    words::print_rows();
}
