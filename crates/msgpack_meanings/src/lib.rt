// What a value means, and a value read alone.
#![tactic(auto)]

ghost use Rattle.std.specs.Prelude.{◌≡◌, ◌+◌, ◌≤◌, length, get_or};
ghost use Rattle.std.specs.Float.{binary32, binary64};
ghost use Rattle.std.specs.Float.Ieee.{of_bits};
ghost use Rattle.msgpack_first_bytes.specs.FirstByte.{form_of};
ghost use Rattle.msgpack_numbers.specs.Number.{number_at};
ghost use Rattle.msgpack_values.specs.Value.{value};
ghost use Rattle.msgpack_scalars.specs.Integer.{integer};
ghost use Rattle.msgpack_meanings.specs.Meaning.{of_integer, of_float32, of_float64, type_bytes, scalar_meaning, meaning, alone};

use msgpack_first_bytes::{Form, Kind};
use msgpack_scalars::Int;
use msgpack_values::OptionalNumber;

// What a value means. A float stands beside its bits, which say which NaN it is. A string, bin or
// ext by the start and length of its content, a container by those of its whole encoding.
#[derive(Clone, Copy)]
pub enum Meaning {
    Absent,
    Nil,
    Boolean(bool),
    Integer(Int),
    Float32(f32, u32),
    Float64(f64, u64),
    String(usize, usize),
    Bin(usize, usize),
    Ext(u8, usize, usize),
    Array(usize, usize),
    Map(usize, usize),
}

// The answer for a value read alone: 0 with its length and meaning, or 4 with the place of the first byte that spoils it.
// Stays: no Result, since GivenExactly of spoiled_places says by `number` when `place` is given.
#[derive(Clone, Copy)]
pub struct Alone {
    pub number: u32,
    pub length: usize,
    pub meaning: Meaning,
    pub place: OptionalNumber,
}

// How deep a value read alone may be.
const ALONE_DEPTH: usize = 16;

// A float 32 with its bits. The language makes a NaN, but not one with chosen bits.
// Stays: beside float64, since no trait has the `from_bits` of both; one of our own would be longer than the two.
fn float32(bits: u32) -> Meaning
    ensures { result ≡ Meaning.Float32 (of_bits binary32 bits) bits }
{
    if bits % 0x8000_0000 <= 0x7f80_0000 {
        Meaning::Float32(f32::from_bits(bits), bits)
    } else {
        Meaning::Float32(0.0 / 0.0, bits)
    }
}

fn float64(bits: u64) -> Meaning
    ensures { result ≡ Meaning.Float64 (of_bits binary64 bits) bits }
{
    if bits % 0x8000_0000_0000_0000 <= 0x7ff0_0000_0000_0000 {
        Meaning::Float64(f64::from_bits(bits), bits)
    } else {
        Meaning::Float64(0.0 / 0.0, bits)
    }
}

#[tactic(auto, unfolding(crate::specs::Meaning::of_float32))]
fn float32_meaning(s: &[u8]) -> Meaning
    ensures { result ≡ of_float32 (number_at 4 1 s.now) }
{
    match msgpack_numbers::number_at(s, 1, 4) {
        Some(n) => float32(n as u32),
        None => Meaning::Absent,
    }
}

#[tactic(auto, unfolding(crate::specs::Meaning::of_float64))]
fn float64_meaning(s: &[u8]) -> Meaning
    ensures { result ≡ of_float64 (number_at 8 1 s.now) }
{
    match msgpack_numbers::number_at(s, 1, 8) {
        Some(n) => float64(n),
        None => Meaning::Absent,
    }
}

#[tactic(auto, using(crate::proofs::Whole::unshifted), unfolding(crate::specs::Meaning::of_integer))]
fn integer_meaning(s: &[u8]) -> Meaning
    ensures { result ≡ of_integer (integer s.now) }
{
    match msgpack_scalars::integer_at(s, 0) {
        Ok((z, _)) => Meaning::Integer(z),
        Err(_) => Meaning::Absent,
    }
}

// What the scalar of `end` bytes at the front means, `width` of them length bytes.
#[tactic(auto, unfolding(crate::specs::Meaning::scalar_meaning))]
fn scalar_meaning(s: &[u8], kind: Kind, width: usize, end: usize) -> Meaning
    requires { (1 + width + type_bytes kind ≤ end) × (end ≤ length s.now) }
    ensures { result ≡ scalar_meaning kind width s.now end }
{
    let from = 1 + width;
    match kind {
        Kind::Nil => Meaning::Nil,
        Kind::Boolean => Meaning::Boolean(s[0] == 0xc3),
        Kind::Unsigned | Kind::Signed => integer_meaning(s),
        Kind::Float32 => float32_meaning(s),
        Kind::Float64 => float64_meaning(s),
        Kind::String => Meaning::String(from, end - from),
        Kind::Bin => Meaning::Bin(from, end - from),
        Kind::Ext => Meaning::Ext(s[from], from + 1, end - (from + 1)),
    }
}

// What the whole value of `end` bytes at the front means.
#[tactic(auto, unfolding(crate::specs::Meaning::meaning))]
fn meaning_of(s: &[u8], end: usize) -> Meaning
    requires { value 16 s.now ≡ Ok end }
    ensures { result ≡ meaning (form_of (get_or s.now 0 0)) s.now end }
{
    match msgpack_first_bytes::form_of(s[0]) {
        Form::Unused => Meaning::Absent,
        Form::Scalar(kind, width, _) => scalar_meaning(s, kind, width, end),
        Form::Array(_, _) => Meaning::Array(0, end),
        Form::Map(_, _) => Meaning::Map(0, end),
    }
}

// A value read alone, held to depth 16. Nothing past its end is judged.
pub fn read_alone(s: &[u8]) -> Alone
    ensures { result ≡ alone s.now }
{
    let read = msgpack_values::read_value(s, 0, ALONE_DEPTH);
    match read {
        Ok(end) => Alone {
            number: 0,
            length: end,
            meaning: meaning_of(s, end),
            place: msgpack_values::NO_PLACE,
        },
        Err(_) => Alone {
            number: 4,
            length: 0,
            meaning: Meaning::Absent,
            place: msgpack_values::place_of(read),
        },
    }
}
