// The numbers of an operation, each at a place of the bytes.
#![tactic(auto)]

ghost use Rattle.std.specs.Prelude.{◌≡◌, drop};
ghost use Rattle.tuples.specs.Decoding.{less, any_integer, at_least, position};
ghost use Rattle.update_parts.specs.Part.{signed_by, natural_by};
ghost use Rattle.update_numbers.specs.FieldNumber.{field_by};

use msgpack_scalars::Int;

// A field by its number from 0; none is the field of a number below 0.
pub type Field = Option<u64>;

// The field number without the index base.
pub fn field_of(number: Int, base: u64) -> Field
    ensures { result ≡ field_by (less base number) }
{
    match number {
        Int::FromZero(n) => n.checked_sub(base),
        Int::BelowZero(_) => None,
    }
}

// The integer at `at`, and the place after it. A number from 0 to 127 is told here, so that the compiler
// has no call to make.
pub fn any_integer(s: &[u8], at: usize) -> Option<(Int, usize)>
    ensures { result ≡ signed_by s.now (any_integer (drop at s.now)) }
{
    let b = *s.get(at)?;
    if msgpack_first_bytes::is_positive_fixint(b) {
        return Some((Int::FromZero(u64::from(b)), at + 1));
    }
    msgpack_scalars::integer_at(s, at).ok()
}

// The integer at `at`, where it is `low` at least.
pub fn at_least(s: &[u8], at: usize, low: u64) -> Option<(u64, usize)>
    ensures { result ≡ natural_by s.now (at_least low (drop at s.now)) }
{
    let (z, end) = any_integer(s, at)?;
    let Int::FromZero(n) = z else {
        return None;
    };
    if n < low {
        return None;
    }
    Some((n, end))
}

// The integer at `at` less the index base, where that is 0 at least.
pub fn position_at(s: &[u8], at: usize, base: u64) -> Option<(u64, usize)>
    ensures { result ≡ natural_by s.now (position base (drop at s.now)) }
{
    let (z, end) = any_integer(s, at)?;
    let p = field_of(z, base)?;
    Some((p, end))
}
