// Updating a tuple and undoing it: the definitions are in specs/, and the theorems about them are
// what the functions below ensure. Of this crate only a refusal's number is code that runs.
#![tactic(auto)]

ghost use Rattle.std.specs.Prelude.{ℕ, ◌≡◌, List, map};
ghost use Rattle.std.proofs.Math.Option.{some};
ghost use Rattle.msgpack_first_bytes.specs.Bytes.{Bytes};
ghost use Rattle.tuples.specs.Tuple.{Fields, fields_of};
ghost use Rattle.tuples.specs.Call.{number_of};
ghost use Rattle.tuples.specs.Sequence.{Event, start, Demand3};
ghost use Rattle.tuples.specs.Press.{GoesInAlike, AsTheTwoCalls};
ghost use Rattle.tuples.specs.Examples.{computed, rules, first, events, showing, sequence, press_computed, presses};

use msgpack_values::OptionalNumber;

// The papers' limits of tuples and of lists; `specs/Limits.antt` has the same.
pub const MAX_FIELDS: usize = 64;

pub const MAX_TUPLE: usize = 16384;

pub const FIELD_DEPTH: usize = 12;

pub const TUPLE_DEPTH: usize = 13;

pub const LIST_DEPTH: usize = 14;

pub const MAX_OPERATIONS: usize = 64;

pub const MAX_LIST: usize = 32768;

// Why an update or an undo is refused.
#[derive(Clone, Copy, PartialEq, Eq)]
pub enum Refusal {
    BadTuple,
    BadList,
    NoField,
    Unsuited,
    OutOfRange,
    TooLarge,
    LongUndo,
    ShortBuffer,
}

// Document 01's number of each refusal, for the answers that C sees.
impl From<Refusal> for u32 {
    ghost from_gives = { λ refusal n. n ≡ number_of refusal };

    fn from(refusal: Refusal) -> u32 {
        match refusal {
            Refusal::BadTuple => 11,
            Refusal::BadList => 12,
            Refusal::NoField => 13,
            Refusal::Unsuited => 14,
            Refusal::OutOfRange => 15,
            Refusal::TooLarge => 16,
            Refusal::LongUndo => 17,
            Refusal::ShortBuffer => 18,
        }
    }
}

// A call's answer: 0 with the length written, or a refusal's number with length 0, and with 13 to
// 16 the operation's index. With 11 the place of the first byte that spoils the tuple, read as one
// value; with 12 that of the list; absent where that value is whole.
// Stays: the C interface of `lak_update` and `lak_undo`, as PressAnswer is that of `lak_press`.
#[repr(C)]
#[derive(Clone, Copy)]
pub struct Answer {
    pub number: u32,
    pub operation: u32,
    pub length: usize,
    pub place: OptionalNumber,
}

// A press's answer: 0 with the two lengths written, or a refusal's number with both lengths 0, and
// with 13 to 16 the operation's index. The place is as in the two calls' answers.
#[repr(C)]
#[derive(Clone, Copy)]
pub struct PressAnswer {
    pub number: u32,
    pub operation: u32,
    pub length: usize,
    pub undo_length: usize,
    pub place: OptionalNumber,
}

// Demand 3: of every sequence of updates and takings back that starts from a tuple that 11 does not
// refuse. The answers are those of the two calls' own definitions.
pub fn demand_3()
    ensures { (t : Bytes) (fs : Fields) (es : List Event) → fields_of t ≡ some fs → Demand3 t fs es }
{}

// A press, with room for the undo list, goes in exactly where demand 3's update goes in, with the
// very bytes of the two calls; refused, it changes neither buffer.
pub fn a_press_goes_in_exactly_where_the_update_does()
    ensures state { GoesInAlike }
    ensures calls { (t l : Bytes) (b : ℕ) (out un : Bytes) → AsTheTwoCalls t l b out un }
{}

// A case for each rule, a worked sequence and presses: these updates do go in and are taken back,
// and these refusals come.
pub fn worked_examples()
    ensures rules { map computed rules ≡ rules }
    ensures sequence { showing (start first) events ≡ sequence }
    ensures presses { map press_computed presses ≡ presses }
{}
