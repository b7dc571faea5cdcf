// The entries as they stand in the table: a grid of sixteen rows.
use crate::text::{print, print_hex};

fn print_label(high: u8) {
    print(b"| ");
    print_hex(u16::from(high), 1);
    print(b". |");
}

// A cell: the four digits of an entry.
fn print_entry(b: u8) {
    print(b" ");
    print_hex(msgpack_first_bytes::page_entry(b), 4);
    print(b" |");
}

fn print_row(high: u8) {
    print_label(high);
    for low in 0..16u8 {
        print_entry((high << 4) + low);
    }
    print(b"\n");
}

fn print_head() {
    print(b"| | .0 | .1 | .2 | .3 | .4 | .5 | .6 | .7 ");
    print(b"| .8 | .9 | .a | .b | .c | .d | .e | .f |\n");
    print(b"|---|---|---|---|---|---|---|---|---");
    print(b"|---|---|---|---|---|---|---|---|\n");
}

pub(crate) fn print_grid() {
    print_head();
    for high in 0..16u8 {
        print_row(high);
    }
}
