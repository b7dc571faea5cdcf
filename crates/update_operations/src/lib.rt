// The operations of a list: one decoded, and what the front of a list tells.
#![tactic(auto)]

ghost use Rattle.std.specs.Prelude.{◌≡◌, drop};
ghost use Rattle.tuples.specs.Operation.{three, five, action_of, operation};
ghost use Rattle.update_operations.specs.Found.{integer_mark, natural_mark, action_by, opening, opened_by, decoded_by};
ghost use Rattle.update_operations.specs.Listing.{front};

use msgpack_scalars::Int;
use update_numbers::Field;

// `&`, `^` and `|`.
#[derive(Clone, Copy)]
pub enum Bitwise {
    And,
    Xor,
    Or,
}

// What alters a field: `+` or `-` (true) with an integer; `&`, `^` or `|` with a number; `:` with the
// position, from 0, the count, and the start of the argument, which ends where the operation ends.
// Stays: the bool of Sum, since two variants would repeat one arm wherever a Change is met.
#[derive(Clone, Copy)]
pub enum Change {
    Sum(bool, Int),
    Bits(Bitwise, u64),
    Splice(u64, u64, usize),
}

// What an operation does. Of `=` and `!` the start of the argument, which ends where the operation ends.
#[derive(Clone, Copy)]
pub enum Action {
    Alter(Change),
    Assign(usize),
    Insert(usize),
    Remove(u64),
}

// An operation decoded: its field, what it does, and the place after it.
pub type Decoded = Option<(Field, Action, usize)>;

// How an operation begins: the count of its array, its mark, its field number, and the place after that.
#[derive(Clone, Copy)]
struct Opened {
    count: usize,
    mark: u8,
    number: Int,
    after: usize,
}

// By a mark whose argument is an integer at least 0, and of `#` at least 1.
fn by_natural(mark: u8, n: u64, end: usize) -> Option<(Action, usize)>
    ensures { result ≡ natural_mark mark n end }
{
    match mark {
        b'&' => Some((Action::Alter(Change::Bits(Bitwise::And, n)), end)),
        b'^' => Some((Action::Alter(Change::Bits(Bitwise::Xor, n)), end)),
        b'|' => Some((Action::Alter(Change::Bits(Bitwise::Or, n)), end)),
        b'#' if n != 0 => Some((Action::Remove(n), end)),
        _ => None,
    }
}

// By a mark whose argument is an integer.
fn by_integer(mark: u8, z: Int, end: usize) -> Option<(Action, usize)>
    ensures { result ≡ integer_mark mark z end }
{
    match mark {
        b'+' => Some((Action::Alter(Change::Sum(false, z)), end)),
        b'-' => Some((Action::Alter(Change::Sum(true, z)), end)),
        _ => {
            let Int::FromZero(n) = z else {
                return None;
            };
            by_natural(mark, n, end)
        }
    }
}

// The action of an array of three, its argument at `at`. The value is read in one place and the integer in
// one, so that the compiler has one call of each to make.
fn three_at(list: &[u8], at: usize, mark: u8) -> Option<(Action, usize)>
    ensures { result ≡ action_by list.now (three mark (drop at list.now)) }
{
    if (mark == b'=') | (mark == b'!') {
        let (start, end) = update_parts::any_value(list, at)?;
        if mark == b'=' {
            return Some((Action::Assign(start), end));
        }
        return Some((Action::Insert(start), end));
    }
    let (z, end) = update_numbers::any_integer(list, at)?;
    by_integer(mark, z, end)
}

// The action of an array of five: a splice, its position at `at`.
fn five_at(list: &[u8], at: usize, mark: u8, base: u64) -> Option<(Action, usize)>
    ensures { result ≡ action_by list.now (five base mark (drop at list.now)) }
{
    if mark != b':' {
        return None;
    }
    let (position, at_count) = update_numbers::position_at(list, at, base)?;
    let (count, at_argument) = update_numbers::at_least(list, at_count, 0)?;
    let (start, end) = update_parts::string_at(list, at_argument)?;
    Some((Action::Alter(Change::Splice(position, count, start)), end))
}

// What an operation does, by how it begins.
fn action_at(list: &[u8], opened: Opened, base: u64) -> Option<(Action, usize)>
    ensures { result ≡ action_by list.now (action_of base opened.count opened.mark (drop opened.after list.now)) }
{
    match opened.count {
        3 => three_at(list, opened.after, opened.mark),
        5 => five_at(list, opened.after, opened.mark, base),
        _ => None,
    }
}

// How the operation at `at` begins.
fn opening_at(list: &[u8], at: usize) -> Option<Opened>
    ensures { result ≡ opened_by list.now (opening (drop at list.now)) }
{
    let (count, at_mark) = update_parts::count_at(list, at)?;
    let (mark, at_number) = update_parts::mark_at(list, at_mark)?;
    let (number, after) = update_numbers::any_integer(list, at_number)?;
    Some(Opened {
        count,
        mark,
        number,
        after,
    })
}

// The operation at `at`.
pub fn operation_at(list: &[u8], at: usize, base: u64) -> Decoded
    ensures { result ≡ decoded_by list.now (operation base (drop at list.now)) }
{
    let opened = opening_at(list, at)?;
    let (action, end) = action_at(list, opened, base)?;
    Some((update_numbers::field_of(opened.number, base), action, end))
}

// The number of operations and the place of the first, as the front of a list tells them before any
// operation is read.
pub fn front_of(list: &[u8], base: u64) -> Option<(usize, usize)>
    ensures { result ≡ front base list.now }
{
    if 1 < base {
        return None;
    }
    if tuples::MAX_LIST < list.len() {
        return None;
    }
    let (count, start) = update_parts::count_at(list, 0)?;
    if tuples::MAX_OPERATIONS < count {
        return None;
    }
    Some((count, start))
}
