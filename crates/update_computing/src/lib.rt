// Numbers computed by `+ - & ^ |` from a field and an argument.
#![tactic(auto)]

ghost use Rattle.std.specs.Prelude.{◌≡◌};
ghost use Rattle.update_places.specs.Place.{bytes_from};
ghost use Rattle.update_computing.specs.Computing.{bitwise_of, Computes, sum_edit, bits_edit};

use msgpack_scalars::Int;
use tuples::Refusal;
use update_operations::Bitwise;
use update_places::Sources;

// A number; or why there is none.
pub type Computed = Result<Int, Refusal>;

// `+`, or `-`, of the field of so many bytes that stands at `at`.
pub fn sum_of(sources: Sources, at: usize, size: usize, v: Int, minus: bool) -> Computed
    ensures { Computes (sum_edit minus v (bytes_from sources.entry.tuple.now sources.entry.list.now sources.entry.work.now at size)) result }
{
    let (z, _) = update_numbers::any_integer(sources.bytes(at, size), 0).ok_or(Refusal::Unsuited)?;
    let sum = if minus {
        update_sums::subtract(z, v)
    } else {
        update_sums::add(z, v)
    };
    sum.ok_or(Refusal::OutOfRange)
}

fn combine(by: Bitwise, n: u64, v: u64) -> u64
    ensures { result ≡ bitwise_of by n v }
{
    match by {
        Bitwise::And => n & v,
        Bitwise::Xor => n ^ v,
        Bitwise::Or => n | v,
    }
}

// `&`, `^` or `|`.
pub fn bits_of(sources: Sources, at: usize, size: usize, v: u64, by: Bitwise) -> Computed
    ensures { Computes (bits_edit by v (bytes_from sources.entry.tuple.now sources.entry.list.now sources.entry.work.now at size)) result }
{
    let (n, _) = update_numbers::at_least(sources.bytes(at, size), 0, 0).ok_or(Refusal::Unsuited)?;
    Ok(Int::FromZero(combine(by, n, v)))
}
