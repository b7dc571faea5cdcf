// A map of a frame into a table: one pass, after which each key is a look-up.
#![tactic(auto)]

ghost use Rattle.std.specs.Prelude.{◌≡◌};
ghost use Rattle.frames.specs.Limits.{held_depth};
ghost use Rattle.frames.specs.Maps.{entry_at, entries, entries_at};
ghost use Rattle.frame_tables.specs.Tables.{table, number_of, step_of, empty_table, tabled_on, place_in};

use frames::Place;
use msgpack_scalars::Opening;

// Where a key's value starts, and its length: 0 where the key is absent, since a value has one byte at least.
// Stays: no Option, which would make each of the two tables half as long again, 3 KB in place of 2.
#[derive(Clone, Copy)]
pub struct Value {
    pub start: usize,
    pub length: usize,
}

pub const NO_VALUE: Value = Value {
    start: 0,
    length: 0,
};

// One for each key that there may be: 0 to `frames::MAX_KEY`.
pub const KEYS: usize = 128;

pub type Table = [Value; KEYS];

// Why a value makes no table: it is no map, or a key no number below 128 (6); a key stands twice (7).
#[derive(Clone, Copy)]
pub enum Untabled {
    NoMap,
    Twice,
}

// The entry at `at`.
fn entry_at(s: &[u8], at: usize) -> Option<(usize, Value)>
    ensures { result ≡ step_of (entry_at held_depth s.now at) }
{
    let Ok((key, start)) = msgpack_scalars::unsigned_at(s, at) else {
        return None;
    };
    if frames::MAX_KEY < key {
        return None;
    }
    let Ok(end) = msgpack_values::read_value(s, start, frames::HELD_DEPTH) else {
        return None;
    };
    let length = end - start;
    Some((key as usize, Value { start, length }))
}

// The table emptied: what was laid before says nothing then.
#[tactic(auto, unfolding(crate::specs::Tables::empty_table))]
fn no_table(values: &mut Table) -> Result<(), Untabled>
    ensures { table (number_of result) values.new ≡ empty_table 6 }
{
    *values = [NO_VALUE; KEYS];
    Err(Untabled::NoMap)
}

// `count` entries from `from` on. It goes on after a key that stood before, since 6 beats 7.
fn table_of(s: &[u8], count: usize, from: usize, values: &mut Table) -> Result<(), Untabled>
    ensures { table (number_of result) values.new
        ≡ tabled_on (table 0 values.old) (entries held_depth s.now count from) }
{
    let mut answer = Ok(());
    let mut at = from;
    for _ in 0..count {
        let Some((key, value)) = entry_at(s, at) else {
            return no_table(values);
        };
        if values[key].length == 0 {
            values[key] = value;
        } else {
            answer = Err(Untabled::Twice);
        }
        at = value.start + value.length;
    }
    answer
}

// The map at `at` laid into a table that is lent empty.
pub fn table_at(s: &[u8], at: usize, values: &mut Table) -> Result<(), Untabled>
    ensures { table (number_of result) values.new
        ≡ tabled_on (table 0 values.old) (entries_at held_depth s.now at) }
{
    let Some((count, from)) = msgpack_scalars::header_at(s, at, Opening::Map) else {
        return no_table(values);
    };
    table_of(s, count, from, values)
}

// Where a table says that a key's value stands; a key past its end is absent.
pub fn place_in(values: &[Value], key: usize) -> Place
    ensures { result ≡ place_in values.now key }
{
    match values.get(key) {
        Some(value) if value.length > 0 => Place {
            present: true,
            start: value.start,
            length: value.length,
        },
        _ => frames::NOWHERE,
    }
}
