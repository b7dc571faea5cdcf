// An update, its undo list, and both by one press.
use crate::frame_cases::print_optional;
use crate::text::{print, print_buffer, print_number, print_sum};
use tuples::{Answer, PressAnswer};

fn print_answer(answer: Answer, out: &[u8]) {
    print_number(answer.number as usize);
    print_number(answer.operation as usize);
    print_number(answer.length);
    print_optional(answer.place);
    print_buffer(out, answer.length);
}

// A press with buffers that hold 5a in every byte.
fn pressed(
    tuple: &[u8],
    list: &[u8],
    index_base: u64,
    out: &mut [u8],
    undo: &mut [u8],
) -> PressAnswer {
    out.fill(0x5a);
    undo.fill(0x5a);
    updates::press(tuple, list, index_base, out, undo)
}

// What a press answers, and the sums of the two buffers afterwards.
fn print_pressed(answer: PressAnswer, out: &[u8], undo: &[u8]) {
    print_number(answer.number as usize);
    print_number(answer.operation as usize);
    print_number(answer.length);
    print_number(answer.undo_length);
    print_optional(answer.place);
    print_sum(out);
    print_sum(undo);
    print(b"\n");
}

pub(crate) fn print_press(
    tuple: &[u8],
    list: &[u8],
    index_base: u64,
    out: &mut [u8],
    undo: &mut [u8],
) {
    let answer = pressed(tuple, list, index_base, out, undo);
    print_pressed(answer, out, undo);
}

// The buffer holds 5a in every byte before it is lent.
pub(crate) fn print_update(tuple: &[u8], list: &[u8], index_base: u64, out: &mut [u8]) {
    out.fill(0x5a);
    let updated = updates::update(tuple, list, index_base, out);
    print_answer(updated, out);
    out.fill(0x5a);
    let undone = updates::undo(tuple, list, index_base, out);
    print_answer(undone, out);
}
