// The parts of which an operation is read, each at a place of the bytes; its numbers are read above.
#![tactic(auto)]

ghost use Rattle.std.specs.Prelude.{◌≡◌, drop};
ghost use Rattle.tuples.specs.Decoding.{any_value, string, count, mark};
ghost use Rattle.update_parts.specs.Part.{part, natural_by, span_by};

use msgpack_scalars::Opening;

// Where the value at `at` begins and ends, if it is at most as deep as a field may be.
pub fn any_value(s: &[u8], at: usize) -> Option<(usize, usize)>
    ensures { result ≡ span_by s.now (any_value (drop at s.now)) }
{
    let end = msgpack_values::read_value(s, at, tuples::FIELD_DEPTH).ok()?;
    Some((at, end))
}

// Where the bytes of the string whose header stands at `at` begin and end.
pub fn string_at(s: &[u8], at: usize) -> Option<(usize, usize)>
    ensures { result ≡ span_by s.now (string (drop at s.now)) }
{
    let (n, start) = msgpack_scalars::header_at(s, at, Opening::String)?;
    if s.len() - start < n {
        return None;
    }
    Some((start, start + n))
}

// The count of the array whose header stands at `at`, and the place after the header. A short header,
// with no length bytes, is told by its entry, so that the compiler has no call to make for it.
pub fn count_at(s: &[u8], at: usize) -> Option<(usize, usize)>
    ensures { result ≡ natural_by s.now (count (drop at s.now)) }
{
    let e = msgpack_first_bytes::entry(*s.get(at)?);
    if e >> 8 == 9 {
        return Some((usize::from(e % 256), at + 1));
    }
    msgpack_scalars::header_at(s, at, Opening::Array)
}

// The character of a mark, which is a string of one character in its shortest form, and the place after it.
pub fn mark_at(s: &[u8], at: usize) -> Option<(u8, usize)>
    ensures { result ≡ natural_by s.now (mark (drop at s.now)) }
{
    let [0xa1, mark, ..] = s.get(at..)? else {
        return None;
    };
    Some((*mark, at + 2))
}

// The bytes from a place up to another; places past the end mean the end.
pub fn bytes_of(list: &[u8], start: usize, end: usize) -> &[u8]
    ensures { result.now ≡ part start end list.now }
{
    let to = end.min(list.len());
    &list[start.min(to)..to]
}
