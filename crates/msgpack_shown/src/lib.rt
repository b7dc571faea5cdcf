// A value read alone as C sees it: its meaning as numbers.
#![tactic(auto)]

ghost use Rattle.std.specs.Prelude.{◌≡◌};
ghost use Rattle.msgpack_meanings.specs.Meaning.{alone};
ghost use Rattle.msgpack_shown.specs.Shown.{by_bits, by_content, integer_shown, meaning_shown, shown};

use msgpack_meanings::Meaning;
use msgpack_scalars::Int;
use msgpack_values::OptionalNumber;

// The answer for a value read alone, as C sees it: 0 with its kind, length and content, or 4 with the place of the first byte that
// spoils it, and else 0.
// Stays: numbers for kinds and for the refusal, the C interface.
#[repr(C)]
#[derive(Clone, Copy)]
pub struct ValueAnswer {
    pub number: u32,
    pub kind: u32,
    pub length: usize,
    pub bits: u64,
    pub start: usize,
    pub size: usize,
    pub ext_type: u8,
    pub place: OptionalNumber,
}

// A value that is told by its bits.
fn by_bits(kind: u32, bits: u64) -> ValueAnswer
    ensures { result ≡ by_bits kind bits }
{
    ValueAnswer {
        number: 0,
        kind,
        length: 0,
        bits,
        start: 0,
        size: 0,
        ext_type: 0,
        place: msgpack_values::NO_PLACE,
    }
}

// A value that is told by the start and size of its content.
fn by_content(kind: u32, start: usize, size: usize, ext_type: u8) -> ValueAnswer
    ensures { result ≡ by_content kind start size ext_type }
{
    ValueAnswer {
        start,
        size,
        ext_type,
        ..by_bits(kind, 0)
    }
}

#[tactic(auto, unfolding(crate::specs::Shown::integer_shown))]
fn integer_shown(z: Int) -> ValueAnswer
    ensures { result ≡ integer_shown z }
{
    match z {
        Int::FromZero(n) => by_bits(2, n),
        Int::BelowZero(m) => by_bits(3, u64::MAX - m),
    }
}

#[tactic(auto, unfolding(crate::specs::Shown::meaning_shown))]
fn meaning_shown(meaning: Meaning) -> ValueAnswer
    ensures { result ≡ meaning_shown meaning }
{
    match meaning {
        Meaning::Absent | Meaning::Nil => by_bits(0, 0),
        Meaning::Boolean(b) => by_bits(1, u64::from(b)),
        Meaning::Integer(z) => integer_shown(z),
        Meaning::Float32(_, bits) => by_bits(4, bits as u64),
        Meaning::Float64(_, bits) => by_bits(5, bits),
        Meaning::String(start, size) => by_content(6, start, size, 0),
        Meaning::Bin(start, size) => by_content(7, start, size, 0),
        Meaning::Ext(t, start, size) => by_content(8, start, size, t),
        Meaning::Array(start, size) => by_content(9, start, size, 0),
        Meaning::Map(start, size) => by_content(10, start, size, 0),
    }
}

// The value at the front of `bytes`, held to depth 16; nothing past its end is judged.
#[tactic(auto, unfolding(crate::specs::Shown::shown))]
pub fn read_shown(bytes: &[u8]) -> ValueAnswer
    ensures { result ≡ shown (alone bytes.now) }
{
    let read = msgpack_meanings::read_alone(bytes);
    let meaning = read.meaning;
    let place = read.place;
    ValueAnswer {
        number: read.number,
        length: read.length,
        place,
        ..meaning_shown(meaning)
    }
}
