// Sums and differences of integers, where they are in range.
#![tactic(auto)]

ghost use Rattle.std.specs.Prelude.{◌≡◌, ◌^◌, pos, negsuc, ◌+ℤ◌, ◌-ℤ◌, ◌≤ℤ◌};
ghost use Rattle.tuples.specs.Edit.{asℤ};
ghost use Rattle.update_sums.specs.Range.{in_range};

use msgpack_scalars::Int;

// The number as one from which none of the sums and differences below wraps.
fn wide(z: Int) -> i128
    ensures is { result ≡ asℤ z }
    ensures low { negsuc (2 ^ 64) ≤ℤ result }
    ensures high { result ≤ℤ pos (2 ^ 64) }
{
    match z {
        Int::FromZero(n) => i128::from(n),
        Int::BelowZero(m) => -1 - i128::from(m),
    }
}

// The integer, where the number is in range.
fn in_range(z: i128) -> Option<Int>
    ensures { result ≡ in_range z }
{
    if z < i128::from(i64::MIN) {
        return None;
    }
    if i128::from(u64::MAX) < z {
        return None;
    }
    if z < 0 {
        return Some(Int::BelowZero((-1 - z) as u64));
    }
    Some(Int::FromZero(z as u64))
}

// z + v.
pub fn add(z: Int, v: Int) -> Option<Int>
    ensures { result ≡ in_range (asℤ z +ℤ asℤ v) }
{
    in_range(wide(z) + wide(v))
}

// z - v.
pub fn subtract(z: Int, v: Int) -> Option<Int>
    ensures { result ≡ in_range (asℤ z -ℤ asℤ v) }
{
    in_range(wide(z) - wide(v))
}
