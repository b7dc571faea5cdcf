// What a frame holds under its known keys, looked up in the tables of its header and body.
#![tactic(auto)]

ghost use Rattle.std.specs.Prelude.{◌≡◌, ℕ};
ghost use Rattle.msgpack_scalars.specs.Integer.{unsigned};
ghost use Rattle.frames.specs.Held.{all, view, as_number, number_in};
ghost use Rattle.frames.specs.Keys.{optional, frame_at};
ghost use Rattle.frame_tables.specs.Tables.{place_in};

use frame_tables::Value;
use frames::{Frame, Place};
use msgpack_values::OptionalNumber;

// The bytes of a place, as far as there are any.
pub fn view_of(s: &[u8], place: Place) -> &[u8]
    ensures { result.now ≡ view s.now place }
{
    let start = place.start.min(s.len());
    let end = start + place.length.min(s.len() - start);
    &s[start..end]
}

fn number_of(v: &[u8]) -> OptionalNumber
    ensures { result ≡ optional (as_number (unsigned v.now)) }
{
    match msgpack_scalars::unsigned_at(v, 0) {
        Ok((n, _)) => OptionalNumber {
            present: true,
            value: n,
        },
        Err(_) => frames::NO_NUMBER,
    }
}

// The number under a key: absent where the key is, or holds no unsigned number.
pub fn number_in(s: &[u8], table: &[Value], key: usize) -> OptionalNumber
    ensures { result ≡ optional (number_in s.now (place_in table.now key)) }
{
    let place = frame_tables::place_in(table, key);
    if place.present {
        number_of(view_of(s, place))
    } else {
        frames::NO_NUMBER
    }
}

// Whether all of `keys` are there.
pub fn all_there(table: &[Value], keys: &[usize]) -> bool
    ensures { result ≡ all (λ (k : ℕ). (place_in table.now k).present) keys.now }
{
    keys.iter()
        .all(|key| frame_tables::place_in(table, *key).present)
}

// The record, whose code was judged before.
#[tactic(auto, unfolding(frames::specs::Keys::frame_at))]
pub fn frame_of(code: u64, s: &[u8], header: &[Value], body: &[Value]) -> Frame
    ensures { result ≡ frame_at code s.now (place_in header.now) (place_in body.now) }
{
    Frame {
        code,
        sync: number_in(s, header, 0x01),
        schema_version: number_in(s, header, 0x05),
        space: number_in(s, body, 0x10),
        index: number_in(s, body, 0x11),
        limit: number_in(s, body, 0x12),
        offset: number_in(s, body, 0x13),
        iterator: number_in(s, body, 0x14),
        index_base: number_in(s, body, 0x15),
        key: frame_tables::place_in(body, 0x20),
        tuple: frame_tables::place_in(body, 0x21),
        function: frame_tables::place_in(body, 0x22),
        user: frame_tables::place_in(body, 0x23),
        expression: frame_tables::place_in(body, 0x27),
        ops: frame_tables::place_in(body, 0x28),
        data: frame_tables::place_in(body, 0x30),
        error: frame_tables::place_in(body, 0x31),
    }
}
