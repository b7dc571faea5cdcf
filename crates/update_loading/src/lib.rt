// A tuple judged, and the places of its fields in a table.
#![tactic(auto)]

ghost use Rattle.std.specs.Prelude.{◌≡◌, ◌<◌, ◌≤◌, length, drop};
ghost use Rattle.msgpack_values.specs.Value.{shift, value, items};
ghost use Rattle.msgpack_values.specs.Pieces.{pieces};
ghost use Rattle.tuples.specs.Limits.{field_depth, max_tuple};
ghost use Rattle.update_places.specs.Place.{places_at};
ghost use Rattle.update_loading.specs.Loading.{loaded, entries, tabled, EndOf};

use msgpack_values::Read;
use tuples::{FIELD_DEPTH, MAX_FIELDS, MAX_TUPLE};

// Why a tuple is not loaded: it is outside the rules, refusal 11; or the table has fewer entries.
#[derive(Clone, Copy, PartialEq, Eq)]
pub enum Unloaded {
    Bad,
    NoRoom,
}

// So many fields, and where the first stands.
pub type Loaded = Result<(usize, usize), Unloaded>;

// The first bytes of a number of two bytes, and of strings whose length stands in one byte and in two.
const UINT_16: u8 = 0xcd;

const STR_8: u8 = 0xd9;

const STR_16: u8 = 0xda;

// The place after such a string at `at`.
fn string_end(s: &[u8], at: usize) -> Option<usize>
    requires { at < length s.now }
    ensures { EndOf s.now at result }
{
    let left = s.len() - at;
    if s[at] == STR_8 {
        if left < 2 {
            return None;
        }
        let n = s[at + 1] as usize;
        if left - 2 < n {
            return None;
        }
        return Some(at + 2 + n);
    }
    if s[at] == STR_16 {
        if left < 3 {
            return None;
        }
        let n = ((s[at + 1] as usize) << 8) + s[at + 2] as usize;
        if left - 3 < n {
            return None;
        }
        return Some(at + 3 + n);
    }
    None
}

// The place after the value at `at`, where it is one of the commonest: their lengths are constants where they
// can be, so that the next value's place is known before this one's first byte is.
fn short_end(s: &[u8], at: usize) -> Option<usize>
    ensures { EndOf s.now at result }
{
    if s.len() <= at {
        return None;
    }
    if s[at] == UINT_16 {
        if s.len() - at < 3 {
            return None;
        }
        return Some(at + 3);
    }
    if s[at] < 0x80 {
        return Some(at + 1);
    }
    string_end(s, at)
}

// The n values from `from` on: the place after them, and into the table the places of those that are whole.
fn measure(tuple: &[u8], from: usize, n: usize, table: &mut [u32]) -> Read
    requires { (n ≤ length table.old) × (length tuple.now ≤ max_tuple) }
    ensures { (result ≡ shift from (items (value field_depth) n (drop from tuple.now)))
        × (table.new ≡ tabled (places_at from (pieces (value field_depth) n (drop from tuple.now))) table.old) }
{
    let mut at = from;
    for entry in table[..n].iter_mut() {
        let end = match short_end(tuple, at) {
            Some(end) => end,
            None => msgpack_values::read_value(tuple, at, FIELD_DEPTH)?,
        };
        *entry = update_places::place_of(at, end - at);
        at = end;
    }
    Ok(at)
}

// The tuple's fields, as far as the table has room.
pub fn load(tuple: &[u8], table: &mut [u32]) -> Loaded
    ensures { (result ≡ loaded (length table.old) tuple.now)
        × (table.new ≡ tabled (entries (length table.old) tuple.now) table.old) }
{
    if MAX_TUPLE < tuple.len() {
        return Err(Unloaded::Bad);
    }
    let (n, from) = update_parts::count_at(tuple, 0).ok_or(Unloaded::Bad)?;
    if MAX_FIELDS < n {
        return Err(Unloaded::Bad);
    }
    if table.len() < n {
        return Err(Unloaded::NoRoom);
    }
    let Ok(end) = measure(tuple, from, n, table) else {
        return Err(Unloaded::Bad);
    };
    if end != tuple.len() {
        return Err(Unloaded::Bad);
    }
    Ok((n, from))
}
