// The calls for C and Rust, thin over the layers below: the C library `liblaksubinat.a`, whose
// header is include/laksubinat.h. A slice is a pointer and a length in C; structs go by value.
#![tactic(auto)]

ghost use Rattle.std.specs.Prelude.{◌≡◌, List};
ghost use Rattle.std.proofs.Math.Option.{some};
ghost use Rattle.msgpack_first_bytes.specs.Bytes.{Bytes};
ghost use Rattle.msgpack_meanings.specs.Meaning.{alone};
ghost use Rattle.msgpack_shown.specs.Shown.{shown};
ghost use Rattle.frames.specs.Reading.{frame_read};
ghost use Rattle.frames.specs.Writing.{frame_write_call};
ghost use Rattle.sessions.specs.Session.{fresh, opening, feed_of, carry_of};
ghost use Rattle.sessions.specs.Cutting.{EveryCutting};
ghost use Rattle.tuples.specs.Tuple.{Fields, fields_of};
ghost use Rattle.tuples.specs.Call.{update_call, undo_call};
ghost use Rattle.tuples.specs.Press.{press_call, GoesInAlike};
ghost use Rattle.tuples.specs.Sequence.{Event, Demand3};
ghost use Rattle.update_answers.specs.Seen.{seen, press_seen};
ghost use Rattle.laksubinat.specs.Shown.{result_of};

use frames::{Frame, FrameAnswer};
use msgpack_shown::ValueAnswer;
use sessions::{Session, SessionAnswer, SessionOpening};
use tuples::{Answer, PressAnswer};

// The value at the front of `bytes`, held to depth 16; nothing past its end is judged.
#[unsafe(no_mangle)]
pub extern "C" fn lak_value_read(bytes: &[u8]) -> ValueAnswer
    ensures { result ≡ shown (alone bytes.now) }
{
    msgpack_shown::read_shown(bytes)
}

// The first frame of `bytes`; what follows it is not judged.
#[unsafe(no_mangle)]
pub extern "C" fn lak_frame_read(bytes: &[u8]) -> FrameAnswer
    ensures { result ≡ frame_read bytes.now }
{
    frame_reading::read_frame(bytes)
}

// The record's frame at the front of `out`, its values copied from `bytes`.
#[unsafe(no_mangle)]
pub extern "C" fn lak_frame_write(frame: Frame, bytes: &[u8], out: &mut [u8]) -> Answer
    ensures { seen result out.new ≡ result_of (frame_write_call frame bytes.now out.old) }
{
    let written = frame_writing::write_frame(frame, bytes, out);
    Answer {
        number: written.number,
        operation: 0,
        length: written.length,
        place: msgpack_values::NO_PLACE,
    }
}

// A session over this carry buffer, or 19.
#[unsafe(no_mangle)]
pub extern "C" fn lak_session_open(carry: &[u8]) -> SessionOpening
    ensures { result ≡ opening carry.now }
{
    session_feeding::open(carry)
}

// A session begun anew.
#[unsafe(no_mangle)]
pub extern "C" fn lak_session_reset() -> Session
    ensures { result ≡ fresh }
{
    session_feeding::reset()
}

// 19, the refusal again, or the next frame, as far as the piece has it; what is begun is kept in `carry`.
#[unsafe(no_mangle)]
pub extern "C" fn lak_session_feed(
    session: Session,
    piece: &[u8],
    carry: &mut [u8],
) -> SessionAnswer
    ensures { (result ≡ feed_of session piece.now carry.old)
        × (carry.new ≡ carry_of session piece.now carry.old) }
{
    session_feeding::feed(session, piece, carry)
}

// The list's operations on the tuple; the new tuple into `out`.
#[unsafe(no_mangle)]
pub extern "C" fn lak_update(tuple: &[u8], list: &[u8], index_base: u64, out: &mut [u8]) -> Answer
    ensures { seen result out.new ≡ update_call tuple.now list.now index_base out.old }
{
    updates::update(tuple, list, index_base, out)
}

// What takes the list's operations on the tuple back; the undo list into `out`.
#[unsafe(no_mangle)]
pub extern "C" fn lak_undo(tuple: &[u8], list: &[u8], index_base: u64, out: &mut [u8]) -> Answer
    ensures { seen result out.new ≡ undo_call tuple.now list.now index_base out.old }
{
    updates::undo(tuple, list, index_base, out)
}

// Both in one run: the new tuple into `out`, and what takes it back into `back`; or neither.
#[unsafe(no_mangle)]
pub extern "C" fn lak_press(
    tuple: &[u8],
    list: &[u8],
    index_base: u64,
    out: &mut [u8],
    back: &mut [u8],
) -> PressAnswer
    ensures { press_seen result out.new back.new
        ≡ press_call tuple.now list.now index_base out.old back.old }
{
    updates::press(tuple, list, index_base, out, back)
}

// Demand 3, of `lak_update` and `lak_undo`, whose answers are `update_call` and `undo_call`: in every
// sequence of updates and takings back, what is taken back is the plain form of what was given.
pub fn demand_3()
    ensures { ((t : Bytes) (fs : Fields) (es : List Event) → fields_of t ≡ some fs → Demand3 t fs es) }
{}

// Of `lak_press`, whose answer is `press_call`: with room for the undo list it leaves the state that demand 3's
// update leaves, so it answers 0 exactly where the update goes in.
pub fn a_press_goes_in_exactly_where_the_update_does()
    ensures { GoesInAlike }
{}

// Of `lak_session_feed`, whose answer is `feed_of` and whose carry buffer is `carry_of`: all ways of cutting the
// same bytes show the frames, and the refusal, that the uncut bytes show; so any two agree (`sessions::any_two_cuttings_agree`).
pub fn every_cutting_shows_the_same()
    ensures { EveryCutting }
{}
