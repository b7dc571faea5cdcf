// A session opened, fed and reset; the frame that a feed shows.
#![tactic(auto)]

ghost use Rattle.std.specs.Prelude.{◌≡◌, ◌+◌, ◌-◌, ◌≤◌, ◌++◌, length, take, ◌==◌};
ghost use Rattle.msgpack_first_bytes.specs.Bytes.{pick};
ghost use Rattle.frames.specs.Cascade.{check};
ghost use Rattle.frames.specs.Reading.{refuse, in_frame, size_of, frame_read};
ghost use Rattle.sessions.specs.Session.{carry_room, fresh, opening, settled_by, idle, session_after, fed, kept, carried_on, feed_of, carry_of, view_of};

use frames::{FrameAnswer, Size};
use msgpack_values::{NO_PLACE, OptionalNumber};
use sessions::{Session, SessionAnswer, SessionOpening};

// A size number has at most so many bytes.
const SIZE_BYTES: usize = 9;

// Nothing begun, nothing refused, nothing counted.
#[tactic(auto, unfolding(sessions::specs::Session::fresh))]
pub fn reset() -> Session
    ensures { result ≡ fresh }
{
    Session {
        offset: 0,
        held: 0,
        refused: 0,
        place: NO_PLACE,
    }
}

// 19, or a session begun over this carry buffer.
#[tactic(auto, unfolding(sessions::specs::Session::opening))]
pub fn open(carry: &[u8]) -> SessionOpening
    ensures { result ≡ opening carry.now }
{
    let number = if carry.len() < sessions::CARRY_ROOM {
        19
    } else {
        0
    };
    SessionOpening {
        number,
        session: reset(),
    }
}

// The frame that a feed answers: the first `length` bytes of the carry buffer or of the piece.
pub fn view<'a>(in_carry: bool, length: usize, piece: &'a [u8], carry: &'a [u8]) -> &'a [u8]
    ensures { result.now ≡ view_of in_carry length piece.now carry.now }
{
    let shown = if in_carry { carry } else { piece };
    &shown[..length.min(shown.len())]
}

// What the size number says of a frame whose first bytes are `begun` and that goes on in `piece`.
fn size_over(begun: &[u8], piece: &[u8]) -> Size
    ensures { result ≡ size_of (begun.now ++ piece.now) }
{
    if begun.is_empty() {
        return frame_reading::read_size(piece);
    }
    let mut first = [0u8; SIZE_BYTES];
    let a = SIZE_BYTES.min(begun.len());
    let b = (SIZE_BYTES - a).min(piece.len());
    msgpack_writing::write_bytes(&mut first, 0, &begun[..a]);
    msgpack_writing::write_bytes(&mut first, a, &piece[..b]);
    let n = a + b;
    frame_reading::read_size(&first[..n])
}

// What is taken of the piece is put after the `held` bytes, except where a frame begins with the piece and is settled by it.
fn keep(held: usize, piece: &[u8], stop: usize, settled: bool, carry: &mut [u8])
    ensures { carry.new ≡ kept held piece.now stop settled carry.old }
{
    if !settled {
        msgpack_writing::write_bytes(carry, held, piece);
    } else if held != 0 {
        let n = stop.saturating_sub(held).min(piece.len());
        msgpack_writing::write_bytes(carry, held, &piece[..n]);
    }
}

// The frame's own bytes read, where all have come.
#[tactic(auto, unfolding(frames::specs::Cascade::check))]
fn contents(s: &[u8], from: usize, whole: bool) -> FrameAnswer
    ensures { result ≡ check (refuse 1) whole (in_frame s.now from) }
{
    if whole {
        frame_reading::read_contents(s, from)
    } else {
        frame_reading::refused(1)
    }
}

// The frame at hand: `held` bytes of it stood in the carry buffer, `arrived` came, its first `stop` bytes settle it, and what reading it answers.
#[derive(Clone, Copy)]
struct AtHand {
    held: usize,
    arrived: usize,
    stop: usize,
    answer: FrameAnswer,
}

// The session after the frame at hand.
#[tactic(auto, unfolding(sessions::specs::Session::session_after, sessions::specs::Session::fresh))]
fn session_after(last: Session, frame: &AtHand) -> Session
    requires { frame.now.answer.number ≡ 1 → frame.now.held + frame.now.arrived ≤ carry_room }
    ensures { result ≡ session_after last frame.now.held frame.now.arrived frame.now.stop frame.now.answer.number frame.now.answer.length frame.now.answer.place }
{
    match frame.answer.number {
        0 => Session {
            offset: last.offset.wrapping_add(frame.answer.length as u64),
            ..reset()
        },
        1 => Session {
            offset: last.offset,
            held: frame.held + frame.arrived,
            ..reset()
        },
        number => Session {
            offset: last.offset,
            held: if frame.held == 0 { 0 } else { frame.stop },
            refused: number,
            place: frame.answer.place,
        },
    }
}

// How many bytes of the piece are taken.
fn taken(frame: &AtHand) -> usize
    ensures { result ≡ pick (frame.now.answer.number == 1) frame.now.arrived (frame.now.stop - frame.now.held) }
{
    if frame.answer.number == 1 {
        frame.arrived
    } else {
        frame.stop.saturating_sub(frame.held)
    }
}

// What a feed answers of the frame at hand.
#[tactic(auto, unfolding(sessions::specs::Session::fed))]
fn answered(last: Session, frame: &AtHand) -> SessionAnswer
    requires { frame.now.answer.number ≡ 1 → frame.now.held + frame.now.arrived ≤ carry_room }
    ensures { result ≡ fed last frame.now.held frame.now.arrived frame.now.stop frame.now.answer }
{
    let FrameAnswer {
        number,
        length,
        frame: record,
        place,
    } = frame.answer;
    SessionAnswer {
        number,
        in_carry: (number == 0) & (0 < frame.held),
        taken: taken(frame),
        offset: last.offset,
        length,
        frame: record,
        session: session_after(last, frame),
        place,
    }
}

// A feed that shows nothing and takes nothing.
#[tactic(auto, unfolding(sessions::specs::Session::idle))]
fn idle(number: u32, place: OptionalNumber, session: Session) -> SessionAnswer
    ensures { result ≡ idle number place session }
{
    SessionAnswer {
        number,
        in_carry: false,
        taken: 0,
        offset: session.offset,
        length: 0,
        frame: frame_reading::empty_frame(),
        session,
        place,
    }
}

// The frame at hand goes on with the piece. It is read once, when all of it has come.
fn go_on(held: usize, piece: &[u8], carry: &mut [u8]) -> AtHand
    requires { (held ≤ length carry.old) × (carry_room ≤ length carry.old) }
    ensures { (((result.held ≡ held) × (result.arrived ≡ length piece.now))
        × ((result.stop ≡ settled_by (size_of (take held carry.old ++ piece.now)))
        × (result.answer ≡ frame_read (take held carry.old ++ piece.now))))
        × (carry.new ≡ carried_on (take held carry.old) piece.now carry.old) }
{
    let arrived = piece.len();
    match size_over(&carry[..held], piece) {
        Err((number, stop)) => {
            keep(held, piece, stop, number != 1, carry);
            let answer = frame_reading::refused(number);
            AtHand {
                held,
                arrived,
                stop,
                answer,
            }
        }
        Ok((size, from)) => {
            let stop = from + size;
            let whole = stop.saturating_sub(held) <= arrived;
            keep(held, piece, stop, whole, carry);
            let answer = contents(view(0 < held, stop, piece, carry), from, whole);
            AtHand {
                held,
                arrived,
                stop,
                answer,
            }
        }
    }
}

// 19, the refusal again, or what the frame at hand is: one frame at most.
pub fn feed(session: Session, piece: &[u8], carry: &mut [u8]) -> SessionAnswer
    ensures { (result ≡ feed_of session piece.now carry.old)
        × (carry.new ≡ carry_of session piece.now carry.old) }
{
    if carry.len() < sessions::CARRY_ROOM {
        return idle(19, NO_PLACE, session);
    }
    if session.refused != 0 {
        return idle(session.refused, session.place, session);
    }
    let held = session.held.min(carry.len());
    let frame = go_on(held, piece, carry);
    answered(session, &frame)
}
