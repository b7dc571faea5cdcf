// A session fed step by step.
use crate::frame_cases::{print_optional, print_record};
use crate::text::{decimal, part, print, print_buffer, print_number, print_sum};
use msgpack_values::OptionalNumber;
use sessions::{Session, SessionAnswer};

// The session after the steps so far, and how many of the line's bytes they took.
#[derive(Clone, Copy)]
struct Run {
    session: Session,
    taken: usize,
}

// A number, absent where there is no word for it.
fn optional_in(word: &[u8]) -> OptionalNumber {
    OptionalNumber {
        present: !word.is_empty(),
        value: decimal(word) as u64,
    }
}

// Offset, held and refused; and the place, where it has one.
pub(crate) fn session_in(words: &[u8]) -> Session {
    Session {
        offset: decimal(part(words, b' ', 0)) as u64,
        held: decimal(part(words, b' ', 1)),
        refused: (decimal(part(words, b' ', 2)) % 4_294_967_296) as u32,
        place: optional_in(part(words, b' ', 3)),
    }
}

// The session after a step, and the carry buffer's sum.
fn print_after(session: Session, carry: &[u8]) {
    print_number(session.offset as usize);
    print_number(session.held);
    print_number(session.refused as usize);
    print_optional(session.place);
    print_sum(carry);
    print(b"\n");
}

fn opened(carry: &[u8]) -> Session {
    let opening = session_feeding::open(carry);
    print(b"o");
    print_number(opening.number as usize);
    opening.session
}

fn reset() -> Session {
    print(b"r");
    session_feeding::reset()
}

fn print_answer(answer: SessionAnswer) {
    print(b"s");
    print_number(answer.number as usize);
    if answer.in_carry {
        print(b"\tcarry");
    } else {
        print(b"\tpiece");
    }
    print_number(answer.taken);
    print_number(answer.offset as usize);
    print_number(answer.length);
    print_record(answer.frame);
    print_optional(answer.place);
}

// The next `n` bytes after those that were taken, or all that are left.
fn piece_of(bytes: &[u8], taken: usize, n: usize) -> &[u8] {
    let left = &bytes[taken.min(bytes.len())..];
    &left[..n.min(left.len())]
}

// A feed; with a carry buffer that lacks its last byte where `short` is true.
fn feed(session: Session, piece: &[u8], short: bool, carry: &mut [u8]) -> SessionAnswer {
    let lent = carry.len().saturating_sub(usize::from(short));
    session_feeding::feed(session, piece, &mut carry[..lent])
}

// What was answered, and the frame that is shown.
fn fed(run: Run, piece: &[u8], short: bool, carry: &mut [u8]) -> Run {
    let answer = feed(run.session, piece, short, carry);
    print_answer(answer);
    let frame = session_feeding::view(answer.in_carry, answer.length, piece, carry);
    print_buffer(frame, frame.len());
    Run {
        session: answer.session,
        taken: run.taken.wrapping_add(answer.taken),
    }
}

// `o` opens, `r` resets, N feeds N bytes, `sN` feeds them with a carry buffer that is one byte short.
fn step(run: Run, word: &[u8], bytes: &[u8], carry: &mut [u8]) -> Run {
    let taken = run.taken;
    match word.first() {
        Some(b'o') => Run {
            session: opened(carry),
            taken,
        },
        Some(b'r') => Run {
            session: reset(),
            taken,
        },
        Some(b's') => fed(
            run,
            piece_of(bytes, taken, decimal(&word[1..])),
            true,
            carry,
        ),
        _ => fed(run, piece_of(bytes, taken, decimal(word)), false, carry),
    }
}

pub(crate) fn print_steps(session: Session, steps: &[u8], bytes: &[u8], carry: &mut [u8]) {
    let mut run = Run { session, taken: 0 };
    for word in steps.split_inclusive(|b| *b == b' ') {
        run = step(run, word, bytes, carry);
        print_after(run.session, carry);
    }
}
