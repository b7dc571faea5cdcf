// Fields altered: numbers computed by `+ - & ^ |` and strings spliced, each in its shortest form, behind the
// bytes of a work array that are in use.
#![tactic(auto)]

ghost use Rattle.std.specs.Prelude.{◌≡◌, [], ◌∷◌, ◌++◌, ◌+◌, ◌^◌, ◌<◌, length, take, IfOk};
ghost use Rattle.msgpack_writing.specs.Forms.{string_form};
ghost use Rattle.msgpack_read_back.specs.Claims.{integer_form, InRange};
ghost use Rattle.tuples.specs.Operation.{splice};
ghost use Rattle.tuples.specs.Edit.{put, edit_at};
ghost use Rattle.update_places.specs.Place.{bytes_from, bytes_at};
ghost use Rattle.update_altering.specs.Altering.{changed, altered_by, work_by, Alters};
ghost use Rattle.msgpack_writing.specs.Put.{Writes};
ghost use Rattle.update_altering.specs.Splicing.{Fits};
ghost use Rattle.update_altering.specs.declared.Obstacle.TheVariants.{Refused};

use msgpack_scalars::Int;
use tuples::{MAX_TUPLE, Refusal};
use update_operations::Change;
use update_places::Sources;

// Why an operation does nothing: it is refused; or the work array has no room for what it makes.
#[derive(Clone, Copy)]
pub enum Obstacle {
    Refused(Refusal),
    Full,
}

// A refusal is an obstacle, so that `?` passes it on as one.
impl From<Refusal> for Obstacle {
    ghost from_gives = { λ refusal obstacle. obstacle ≡ Refused refusal };

    fn from(refusal: Refusal) -> Obstacle {
        Obstacle::Refused(refusal)
    }
}

// Where the new field ends in the work array.
pub type Altered = Result<usize, Obstacle>;

fn write_number(z: Int, out: &mut [u8]) -> usize
    ensures { Writes 0 (integer_form z) result out.old out.new }
{
    match z {
        Int::FromZero(n) => msgpack_writing::write_unsigned(out, 0, n),
        Int::BelowZero(m) => msgpack_writing::write_negative(out, 0, m),
    }
}

// A number in its shortest form, which is never empty: nothing is written only where it has no room.
fn put_number(z: Int, out: &mut [u8]) -> Altered
    requires { InRange z }
    ensures edit { Alters (put 0 (integer_form z)) 0 result out.old out.new }
    ensures some { IfOk result (λ n. 0 < n) }
{
    let end = write_number(z, out);
    if end == 0 {
        return Err(Obstacle::Full);
    }
    Ok(end)
}

// A string of three pieces.
fn put_string(first: &[u8], second: &[u8], third: &[u8], out: &mut [u8]) -> usize
    requires { Fits 0 (length first.now + (length second.now + length third.now)) out.old }
    ensures { Writes 0 (string_form (first.now ++ (second.now ++ third.now))) result out.old out.new }
{
    let n = first.len() + (second.len() + third.len());
    let at_first = msgpack_writing::write_string_header(out, 0, n as u32);
    let at_second = msgpack_writing::write_bytes(out, at_first, first);
    let at_third = msgpack_writing::write_bytes(out, at_second, second);
    msgpack_writing::write_bytes(out, at_third, third)
}

// `:` of the string that is a field.
fn splice(field: &[u8], position: usize, count: usize, argument: &[u8], out: &mut [u8]) -> Altered
    requires { length field.now < 2 ^ 15 }
    ensures edit { Alters (edit_at (splice position count argument.now) 0 (field.now ∷ [])) 0 result out.old out.new }
    ensures some { IfOk result (λ n. 0 < n) }
{
    let (from, to) = update_parts::string_at(field, 0).ok_or(Refusal::Unsuited)?;
    let after = (to - from).saturating_sub(position);
    let rest = after.saturating_sub(count);
    let n = to - from - after;
    let length = n + (argument.len() + rest);
    if MAX_TUPLE < length {
        return Err(Obstacle::Refused(Refusal::TooLarge));
    }
    let long = msgpack_writing::string_header_length(length as u32) + length;
    if MAX_TUPLE < long {
        return Err(Obstacle::Refused(Refusal::TooLarge));
    }
    if out.len() < long {
        return Err(Obstacle::Full);
    }
    Ok(put_string(&field[from..from + n], argument, &field[to - rest..to], out))
}

// What a change makes of the field of so many bytes that stands at `at`: in the free bytes of the work array alone.
fn changed(
    sources: Sources,
    at: usize,
    size: usize,
    change: Change,
    end: usize,
    free: &mut [u8],
) -> Altered
    requires { size < 2 ^ 15 }
    ensures edit { Alters (changed sources.entry.list.now change end (bytes_from sources.entry.tuple.now sources.entry.list.now sources.entry.work.now at size)) 0 result free.old free.new }
    ensures some { IfOk result (λ n. 0 < n) }
{
    match change {
        Change::Sum(minus, v) => {
            let z = update_computing::sum_of(sources, at, size, v, minus)?;
            put_number(z, free)
        }
        Change::Bits(by, v) => {
            let z = update_computing::bits_of(sources, at, size, v, by)?;
            put_number(z, free)
        }
        Change::Splice(position, count, start) => {
            let argument = update_parts::bytes_of(sources.list, start, end);
            splice(
                sources.bytes(at, size),
                position as usize,
                count as usize,
                argument,
                free,
            )
        }
    }
}

// What a change of an operation that ends at `end` makes of the field at the place `old`.
pub fn alter(
    tuple: &[u8],
    list: &[u8],
    work: &mut [u8],
    used: usize,
    old: u32,
    change: Change,
    end: usize,
) -> Altered
    ensures { (result ≡ altered_by (changed list.now change end (bytes_at tuple.now list.now (take used work.old) old)) used work.old)
        × (work.new ≡ work_by (changed list.now change end (bytes_at tuple.now list.now (take used work.old) old)) used work.old) }
{
    let taken = used.min(work.len());
    let (work, free) = work.split_at_mut(taken);
    let sources = Sources { tuple, list, work };
    let made = changed(
        sources,
        update_places::start_of(old),
        update_places::length_of(old),
        change,
        end,
        free,
    )?;
    Ok(used + made)
}
