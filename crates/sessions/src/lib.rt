// Frames taken as the line delivers them: what a session is and what a feed answers; their definitions stand in specs/.
// The claim about cutting speaks of `feed_of` and `carry_of`, which `session_feeding::feed` is proved to answer and to leave.
#![tactic(auto)]

ghost use Rattle.sessions.specs.Cutting.{EveryCutting, AnyTwo};

use frames::Frame;
use msgpack_values::OptionalNumber;

// The longest frame: a size number of nine bytes and the 60,000 that it promises. A carry buffer has room for it.
pub const CARRY_ROOM: usize = 60_009;

// Stays: C reads and keeps these three structs, so that 0 says that nothing was refused, and numbers stand for refusals.

// What one feed leaves for the next.
#[repr(C)]
#[derive(Clone, Copy)]
pub struct Session {
    // the length of all frames answered since the opening or reset, going round at 2^64
    pub offset: u64,
    // how many bytes of the frame at hand stand at the carry buffer's start
    pub held: usize,
    // the number of a refused frame, or 0
    pub refused: u32,
    // and its place, where it has one
    pub place: OptionalNumber,
}

#[repr(C)]
#[derive(Clone, Copy)]
pub struct SessionOpening {
    pub number: u32,
    pub session: Session,
}

// What a feed answers: 0 with a frame, 1 where it is not settled yet, or a refusal's number.
#[repr(C)]
#[derive(Clone, Copy)]
pub struct SessionAnswer {
    pub number: u32,
    // the frame is shown from the carry buffer's start, else from the piece's
    pub in_carry: bool,
    // how many bytes of the piece were taken
    pub taken: usize,
    // where the frame at hand begins
    pub offset: u64,
    pub length: usize,
    // its places count from the shown frame's first byte
    pub frame: Frame,
    pub session: Session,
    // with 4, the first byte that spoils the frame, counted from the frame's start
    pub place: OptionalNumber,
}

// For all bytes, all ways of cutting them and every carry buffer that is long enough: what a run of feeds from an
// opening or a reset shows is what the bytes taken so far show uncut; and what all of them show, once all are taken or a frame is refused.
pub fn every_cutting_shows_the_same()
    ensures { EveryCutting }
{}

// Two runs to the end over the same bytes show the same frames, and the same refusal at the same offset and place.
pub fn any_two_cuttings_agree()
    ensures { AnyTwo }
{}
