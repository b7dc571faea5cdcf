// The record of a frame and what the calls on frames answer, for Rust and C alike; their definitions stand in specs/.

#![tactic(auto)]

use msgpack_values::OptionalNumber;

// Document 01's limits of frames; `specs/Limits.antt` has the same, each under its sentence.
pub const MAX_SIZE: usize = 60_000;

pub const MAX_DEPTH: usize = 16;

pub const HELD_DEPTH: usize = 15;

pub const MAX_KEY: u64 = 127;

pub const MAX_32: u64 = 4_294_967_295;

pub const MAX_64: u64 = 0xffff_ffff_ffff_ffff;

pub const MAX_BASE: u64 = 1;

// How many known keys there are: in the header, and in all.
pub const HEADER_KEYS: usize = 3;

pub const KNOWN_KEYS: usize = 17;

// The place of a value that a frame may leave out: exactly its encoding, counted from the first lent byte.
// Stays: a flag and no Option, since C reads it.
#[repr(C)]
#[derive(Clone, Copy)]
pub struct Place {
    pub present: bool,
    pub start: usize,
    pub length: usize,
}

pub const NO_NUMBER: OptionalNumber = OptionalNumber {
    present: false,
    value: 0,
};

pub const NOWHERE: Place = Place {
    present: false,
    start: 0,
    length: 0,
};

// What a frame holds under its known keys.
#[repr(C)]
#[derive(Clone, Copy)]
pub struct Frame {
    pub code: u64,
    pub sync: OptionalNumber,
    pub schema_version: OptionalNumber,
    pub space: OptionalNumber,
    pub index: OptionalNumber,
    pub limit: OptionalNumber,
    pub offset: OptionalNumber,
    pub iterator: OptionalNumber,
    pub index_base: OptionalNumber,
    pub key: Place,
    pub tuple: Place,
    pub function: Place,
    pub user: Place,
    pub expression: Place,
    pub ops: Place,
    pub data: Place,
    pub error: Place,
}

// No key at all.
pub const EMPTY_FRAME: Frame = Frame {
    code: 0,
    sync: NO_NUMBER,
    schema_version: NO_NUMBER,
    space: NO_NUMBER,
    index: NO_NUMBER,
    limit: NO_NUMBER,
    offset: NO_NUMBER,
    iterator: NO_NUMBER,
    index_base: NO_NUMBER,
    key: NOWHERE,
    tuple: NOWHERE,
    function: NOWHERE,
    user: NOWHERE,
    expression: NOWHERE,
    ops: NOWHERE,
    data: NOWHERE,
    error: NOWHERE,
};

// What reading a frame answers: 0 with its length and record, or a refusal's number with length 0 and an empty record; with 4 also the
// place of the first byte that spoils the frame, counted from its start.
#[repr(C)]
#[derive(Clone, Copy)]
pub struct FrameAnswer {
    pub number: u32,
    pub length: usize,
    pub frame: Frame,
    pub place: OptionalNumber,
}

// What writing a frame answers: 0 with the length written, or a refusal's number with length 0.
#[repr(C)]
#[derive(Clone, Copy)]
pub struct Written {
    pub number: u32,
    pub length: usize,
}

// Stays: a refusal's number, since C is told it (FrameAnswer.number) and the claim about cutting compares it.
// What a size number says: so many bytes are promised from a place on, or the number of its refusal and how many bytes settle that.
pub type Size = Result<(usize, usize), (u32, usize)>;

// What a known key must hold.
#[derive(Clone, Copy)]
pub enum Rule {
    AtMost(u64),
    Array,
    String,
    Anything,
}

// A known key and what it must hold: a line of document 01's tables.
#[derive(Clone, Copy)]
pub struct Line {
    pub key: u8,
    pub rule: Rule,
}
