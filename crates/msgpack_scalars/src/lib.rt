// Unsigned numbers, integers, and the headers of strings, arrays and maps.
#![tactic(auto)]

ghost use Rattle.std.specs.Prelude.{◌≡◌, ◌+◌, ◌-◌, ◌*◌, ◌^◌, ◌<◌, ◌≤◌, max, length, drop};
ghost use Rattle.msgpack_scalars.specs.Start.{scalar_of, start_by, Few};
ghost use Rattle.msgpack_scalars.specs.Integer.{due, natural_of, signed_of, unsigned, signed, integer, shift_natural, shift_integer};
ghost use Rattle.msgpack_scalars.specs.Header.{counted, header, shift_header};

use msgpack_first_bytes::{Form, Kind};

// Why no number is read: its bytes have not all come, or the first byte starts none of the kind.
#[derive(Clone, Copy, PartialEq, Eq)]
pub enum NoNumber {
    Cut,
    Other,
}

// An unsigned number, and the place after it.
pub type Natural = Result<(u64, usize), NoNumber>;

// An integer: FromZero(n) is n, BelowZero(m) is -1 - m.
#[derive(Clone, Copy)]
pub enum Int {
    FromZero(u64),
    BelowZero(u64),
}

// An integer, and the place after it.
pub type Integer = Result<(Int, usize), NoNumber>;

// Where a form begins what is asked for: its length bytes, and what is due by its first byte.
pub type Start = Option<(usize, usize)>;

// How many bytes are due after the first byte of a number of one kind, and there.
pub type Due = Result<usize, NoNumber>;

// Whose header is asked for.
#[derive(Clone, Copy)]
pub enum Opening {
    String,
    Array,
    Map,
}

// A length or a count, and the place after the header; or none of the kind asked for.
pub type Header = Option<(usize, usize)>;

// The start of a scalar of one kind.
fn scalar_start(kind: Kind, form: Form) -> Start
    ensures { result ≡ scalar_of kind form }
{
    match form {
        Form::Scalar(found, width, fixed) if msgpack_first_bytes::same_kind(found, kind) => {
            Some((width, fixed))
        }
        _ => None,
    }
}

// The start of what is asked for, a map's in entries: its first byte counts a key and a value for each.
fn start_of(opening: Opening, form: Form) -> Start
    ensures { result ≡ start_by opening form }
{
    match (opening, form) {
        (Opening::String, _) => scalar_start(Kind::String, form),
        (Opening::Array, Form::Array(width, fixed)) => Some((width, fixed)),
        (Opening::Map, Form::Map(width, fixed)) => Some((width, fixed >> 1)),
        _ => None,
    }
}

// The number of one kind at `at`, as far as its first byte says.
fn due_at(s: &[u8], at: usize, kind: Kind) -> Due
    ensures { result ≡ due kind (drop at s.now) }
{
    if s.len() <= at {
        return Err(NoNumber::Cut);
    }
    let (_, more) = scalar_start(kind, msgpack_first_bytes::form_of(s[at])).ok_or(NoNumber::Other)?;
    if s.len() - at <= more {
        return Err(NoNumber::Cut);
    }
    Ok(more)
}

// The number of the first byte at `at` and the `more` bytes due after it.
fn natural_of(s: &[u8], at: usize, more: usize) -> u64
    requires { (more ≤ 8) × (at + 1 + more ≤ length s.now) }
    ensures { (result ≡ natural_of more (drop at s.now)) × (result < 2 ^ (8 * max more 1)) }
{
    if more == 0 {
        return s[at] as u64;
    }
    msgpack_numbers::number_at(s, at + 1, more).unwrap_or(0)
}

// The unsigned number at `at`, by the form of its first byte.
#[tactic(auto, using(msgpack_first_bytes::proofs::Logic::error_left), unfolding(crate::specs::Integer::unsigned, crate::specs::Integer::unsigned_by))]
fn unsigned_by_form(s: &[u8], at: usize) -> Natural
    ensures { result ≡ shift_natural at (unsigned (drop at s.now)) }
{
    let more = due_at(s, at, Kind::Unsigned)?;
    Ok((natural_of(s, at, more), at + (1 + more)))
}

// The unsigned number at `at`. One from 0 to 127 is told here, so that the compiler has no call to make.
pub fn unsigned_at(s: &[u8], at: usize) -> Natural
    ensures { result ≡ shift_natural at (unsigned (drop at s.now)) }
{
    if at < s.len() {
        let b = s[at];
        if msgpack_first_bytes::is_positive_fixint(b) {
            return Ok((b as u64, at + 1));
        }
    }
    unsigned_by_form(s, at)
}

// The sign bit of `width` bytes.
fn sign_bit(width: usize) -> u64
    requires { (1 ≤ width) × (width ≤ 8) }
    ensures { result ≡ 2 ^ (8 * width - 1) }
{
    1 << ((width << 3) - 1)
}

// The same number in two's complement; a first byte alone is that byte less 256.
fn signed_of(s: &[u8], at: usize, more: usize) -> Int
    requires { (more ≤ 8) × (at + 1 + more ≤ length s.now) }
    ensures { result ≡ signed_of more (drop at s.now) }
{
    let n = natural_of(s, at, more);
    if more == 0 {
        return Int::BelowZero(255 - n);
    }
    let half = sign_bit(more);
    if n < half {
        return Int::FromZero(n);
    }
    Int::BelowZero(half - 1 - (n - half))
}

// The integer of a signed form at `at`.
// Stays: beside `unsigned_by_form`, which differs in kind and reading; one function over a closure would be longer.
#[tactic(auto, using(msgpack_first_bytes::proofs::Logic::error_left), unfolding(crate::specs::Integer::signed, crate::specs::Integer::signed_by))]
fn signed_at(s: &[u8], at: usize) -> Integer
    ensures { result ≡ shift_integer at (signed (drop at s.now)) }
{
    let more = due_at(s, at, Kind::Signed)?;
    Ok((signed_of(s, at, more), at + (1 + more)))
}

// The integer at `at`.
#[tactic(auto, using(crate::proofs::Laws::adding_shift), unfolding(crate::specs::Integer::adding, crate::specs::Integer::integer))]
pub fn integer_at(s: &[u8], at: usize) -> Integer
    ensures { result ≡ shift_integer at (integer (drop at s.now)) }
{
    match unsigned_at(s, at) {
        Ok((n, end)) => Ok((Int::FromZero(n), end)),
        Err(NoNumber::Cut) => Err(NoNumber::Cut),
        Err(NoNumber::Other) => signed_at(s, at),
    }
}

// What a header says: `fixed` by its first byte at `at`, and more by the `width` bytes after it.
fn counted_at(s: &[u8], at: usize, start: Start) -> Header
    requires { (at < length s.now) × Few 31 start }
    ensures { result ≡ shift_header at (counted start (drop (at + 1) s.now)) }
{
    let (width, fixed) = start?;
    let n = msgpack_numbers::number_at(s, at + 1, width)?;
    Some((n as usize + fixed, at + (1 + width)))
}

// The header at `at` of a string (its length), an array or a map (its count).
pub fn header_at(s: &[u8], at: usize, opening: Opening) -> Header
    ensures { result ≡ shift_header at (header (start_by opening) (drop at s.now)) }
{
    if s.len() <= at {
        return None;
    }
    let start = start_of(opening, msgpack_first_bytes::form_of(s[at]));
    counted_at(s, at, start)
}
