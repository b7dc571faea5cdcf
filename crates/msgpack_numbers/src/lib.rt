// Numbers of several bytes, the most significant first, put together by shifting.
#![tactic(auto)]

ghost use Rattle.std.specs.Prelude.{◌≡◌, ◌∷◌, ◌++◌, ℕ, ◌+◌, ◌*◌, ◌^◌, ◌<◌, ◌≤◌, length};
ghost use Rattle.msgpack_first_bytes.specs.Bytes.{Bytes};
ghost use Rattle.msgpack_numbers.specs.Number.{number, number_at, Below};

// One byte more at the low end, without a multiplication.
fn appended(n: u64, b: u8) -> u64
    requires { n < 2 ^ 56 }
    ensures { result ≡ n * 256 + b }
{
    (n << 8) + b as u64
}

// The number of the `width` bytes from `at`.
pub fn number_at(s: &[u8], at: usize, width: usize) -> Option<u64>
    ensures { (result ≡ number_at width at s.now) × Below (2 ^ (8 * width)) result }
{
    if 8 < width {
        return None;
    }
    let mut n: u64 = 0;
    for &b in s.get(at..)?.get(..width)? {
        n = appended(n, b);
    }
    Some(n)
}

// What `number_at` answers for up to 8 bytes, wherever they stand: their sum by powers of 256; written out for 1, 2, 4 and 8.
pub fn each_width_is_its_bytes_sum()
    ensures { ((s bs t : Bytes) → length bs ≤ 8 → number_at (length bs) (length s) (s ++ (bs ++ t)) ≡ Some (number bs))
        × ((s t : Bytes) (a : ℕ) → number_at 1 (length s) (s ++ (a ∷ t)) ≡ Some a)
        × ((s t : Bytes) (a b : ℕ) → number_at 2 (length s) (s ++ (a ∷ b ∷ t)) ≡ Some (a * 256 + b))
        × ((s t : Bytes) (a b c d : ℕ) → number_at 4 (length s) (s ++ (a ∷ b ∷ c ∷ d ∷ t)) ≡ Some (a * 256 ^ 3 + b * 256 ^ 2 + c * 256 + d))
        × ((s t : Bytes) (a b c d e f g h : ℕ) → number_at 8 (length s) (s ++ (a ∷ b ∷ c ∷ d ∷ e ∷ f ∷ g ∷ h ∷ t))
        ≡ Some (a * 256 ^ 7 + b * 256 ^ 6 + c * 256 ^ 5 + d * 256 ^ 4 + e * 256 ^ 3 + f * 256 ^ 2 + g * 256 + h)) }
{}
