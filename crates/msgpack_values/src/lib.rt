// One MessagePack value at a place of a slice, held to a depth.
// Stays: a slice and a place in it are two arguments, as `read_value` has them; a struct would be taken apart at each call.
#![tactic(auto)]

ghost use Rattle.std.specs.Prelude.{◌≡◌, ◌+◌, ◌-◌, ◌*◌, ◌^◌, ◌<◌, ◌≤◌, length, take, drop, true};
ghost use Rattle.msgpack_first_bytes.specs.Entry.{length_bytes, kind_digit};
ghost use Rattle.msgpack_numbers.specs.Number.{number};
ghost use Rattle.msgpack_values.specs.Value.{shift, payload, sized, items, value};
ghost use Rattle.msgpack_values.specs.Spoiled.{place_of, spoiled_at};
ghost use Rattle.msgpack_values.specs.Tokens.{first_byte_entry, Width, Counts, values_of, Heads, Tells, Reads, Ones, Inside, Same, Ran};

// A whole value's end, the place of the first byte after it; of a broken one the place of the first
// spoiling byte: an unused first byte, a container one too deep, or the end of the bytes.
pub type Read = Result<usize, usize>;

// A number that may be absent; then it is all 0.
// Stays: a flag beside the value, the C interface.
#[repr(C)]
#[derive(Clone, Copy)]
pub struct OptionalNumber {
    pub present: bool,
    pub value: u64,
}

pub const NO_PLACE: OptionalNumber = OptionalNumber {
    present: false,
    value: 0,
};

// What stands at a place, as far as its first bytes tell: a value, with the place after it, and of one with a
// single length byte also that of its head; a container, with the number, place and depth of its values.
#[derive(Clone, Copy)]
enum Token {
    Past(usize),
    Headed(usize, usize),
    Holds(usize, usize, usize),
}

// An item that is read: the place after it, and where its head stands, if others may have the same.
#[derive(Clone, Copy)]
enum Item {
    Past(usize),
    Headed(usize, usize),
}

// What is inside arrays of one: its place, the depth that it may have, the entry of its first byte.
#[derive(Clone, Copy)]
struct Inner {
    at: usize,
    depth: usize,
    entry: u16,
}

// The first two bytes of an item with one length byte, and its size.
#[derive(Clone, Copy)]
struct Head {
    first: u8,
    second: u8,
    size: usize,
}

// Where the items with the same head end, and how many are left from the last of them on.
#[derive(Clone, Copy)]
struct Run {
    end: usize,
    left: usize,
}

// Entries below this are of scalars that their first byte tells: no length bytes, a kind before the array's.
const TOLD_END: u16 = 0x0900;

const ARRAY_OF_ONE: u16 = 0x0901;

const UNUSED: u16 = 0x0f00;

// The kind of an array, the first of the two that hold values.
const ARRAY: u16 = 9;

// A length with one byte more at its low end.
fn longer(n: usize, b: u8) -> usize
    requires { n < 2 ^ 24 }
    ensures { (result ≡ n * 256 + b) × (result < (n + 1) * 256) }
{
    (n << 8) + b as usize
}

// The number of the `width` bytes from `at`, without a loop.
fn length_at(s: &[u8], at: usize, width: usize) -> usize
    requires { (at + width ≤ length s.now) × Width width }
    ensures { (result ≡ number (take width (drop at s.now))) × (result < 2 ^ 32) }
{
    if width == 1 {
        return longer(0, s[at]);
    }
    if width == 2 {
        return longer(longer(0, s[at]), s[at + 1]);
    }
    longer(
        longer(longer(longer(0, s[at]), s[at + 1]), s[at + 2]),
        s[at + 3],
    )
}

// The entry of the first byte at `at`; past the end that of the unused byte, which is broken there too.
#[tactic(auto, unfolding(crate::specs::Tokens::first_byte_entry))]
fn first_byte_entry(s: &[u8], at: usize) -> u16
    ensures { result ≡ first_byte_entry s.now at }
{
    if s.len() <= at {
        return UNUSED;
    }
    msgpack_first_bytes::entry(s[at])
}

// A scalar at `at` with `due` bytes after its first. The commonest lengths are constants of their own: where
// the next value stands is then known before the byte is.
fn told_scalar(s: &[u8], at: usize, due: usize) -> Read
    requires { (at < length s.now) × (due < 256) }
    ensures { result ≡ shift (at + 1) (payload due (drop (at + 1) s.now)) }
{
    if due == 0 {
        return Ok(at + 1);
    }
    if s.len() - at <= due {
        return Err(s.len());
    }
    match due {
        2 => Ok(at + 3),
        4 => Ok(at + 5),
        8 => Ok(at + 9),
        _ => Ok(at + 1 + due),
    }
}

// A scalar whose first byte stands at `at`: its length in `width` bytes, that many, and `more`.
fn long_scalar(s: &[u8], at: usize, width: usize, more: usize) -> Read
    requires { (at < length s.now) × (Width width × (more ≤ 1)) }
    ensures { result ≡ shift (at + 1) (sized width (λ n t. payload (n + more) t) (drop (at + 1) s.now)) }
{
    if s.len() - at <= width {
        return Err(s.len());
    }
    let due = length_at(s, at + 1, width) + more;
    let from = at + 1 + width;
    if s.len() - from < due {
        return Err(s.len());
    }
    Ok(from + due)
}

// The number of values of the container at `at`, by its entry and its count bytes.
fn values_of(s: &[u8], at: usize, e: u16) -> usize
    requires { (at + 1 + length_bytes e ≤ length s.now) × Counts e }
    ensures { result ≡ values_of e (drop (at + 1) s.now) }
{
    let width = (e >> 12) as usize;
    if width == 0 {
        return (e % 256) as usize;
    }
    let n = length_at(s, at + 1, width);
    if (e >> 8) % 16 == ARRAY {
        return n;
    }
    n + n
}

// A container at `at`, or no value.
fn container_at(s: &[u8], at: usize, e: u16, depth: usize) -> Result<Token, usize>
    requires { (e ≡ first_byte_entry s.now at) × (9 ≤ kind_digit e) }
    ensures { Tells s.now at depth (shift at (value depth (drop at s.now))) result }
{
    if depth == 0 {
        return Err(at);
    }
    if e == UNUSED {
        return Err(at);
    }
    let width = (e >> 12) as usize;
    if s.len() - at <= width {
        return Err(s.len());
    }
    Ok(Token::Holds(values_of(s, at, e), at + 1 + width, depth - 1))
}

// What stands at `at`, where its first byte alone does not tell its length.
fn long_token(s: &[u8], at: usize, e: u16, depth: usize) -> Result<Token, usize>
    requires { (e ≡ first_byte_entry s.now at) × (0x900 ≤ e) }
    ensures { Tells s.now at depth (shift at (value depth (drop at s.now))) result }
{
    if ARRAY <= (e >> 8) % 16 {
        return container_at(s, at, e, depth);
    }
    let next = long_scalar(s, at, (e >> 12) as usize, (e % 256) as usize)?;
    if e >> 12 == 1 {
        return Ok(Token::Headed(at, next));
    }
    Ok(Token::Past(next))
}

// Whether four arrays of one begin at `at`, one in the other.
fn four_ones(s: &[u8], at: usize) -> bool
    requires { at + 4 ≤ length s.now }
    ensures { result ≡ true → Ones s.now at (at + 4) }
{
    msgpack_first_bytes::is_array_of_one(s[at])
        & msgpack_first_bytes::is_array_of_one(s[at + 1])
        & msgpack_first_bytes::is_array_of_one(s[at + 2])
        & msgpack_first_bytes::is_array_of_one(s[at + 3])
}

// The place after arrays of one in one another from `at` on, up to `stop`, as far as four at a turn go.
fn past_fours(s: &[u8], at: usize, stop: usize) -> usize
    requires { (at ≤ stop) × (stop ≤ length s.now) }
    ensures { (result ≤ stop) × Ones s.now at result }
{
    let mut end = at;
    // Stays: no chunks of four: where they stop is a place in `s`, which a chunk does not tell.
    while 4 <= stop - end && four_ones(s, end) {
        end += 4;
    }
    end
}

// .. as far as one at a turn goes.
fn past_ones(s: &[u8], at: usize, stop: usize) -> usize
    requires { (at ≤ stop) × (stop ≤ length s.now) }
    ensures { (result ≤ stop) × Ones s.now at result }
{
    let mut end = at;
    // Stays: no for over at..stop, which takes 3.6 % more instructions where many arrays of one stand side by side.
    while end < stop && msgpack_first_bytes::is_array_of_one(s[end]) {
        end += 1;
    }
    end
}

// What is inside the arrays of one that begin at `at`, if any do.
fn inside_ones(s: &[u8], at: usize, depth: usize, e: u16) -> Inner
    requires { (at ≤ length s.now) × (e ≡ first_byte_entry s.now at) }
    ensures { Inside s.now at depth result }
{
    if e != ARRAY_OF_ONE {
        return Inner {
            at,
            depth,
            entry: e,
        };
    }
    let stop = at + depth.min(s.len() - at);
    let end = past_ones(s, past_fours(s, at, stop), stop);
    Inner {
        at: end,
        depth: depth - (end - at),
        entry: first_byte_entry(s, end),
    }
}

// What stands at `at`.
fn token_at(s: &[u8], at: usize, depth: usize) -> Result<Token, usize>
    ensures { Tells s.now at depth (shift at (value depth (drop at s.now))) result }
{
    let e = first_byte_entry(s, at);
    if e < TOLD_END {
        let end = told_scalar(s, at, (e % 256) as usize)?;
        return Ok(Token::Past(end));
    }
    if s.len() <= at {
        return Err(at);
    }
    let inner = inside_ones(s, at, depth, e);
    if inner.entry < TOLD_END {
        let end = told_scalar(s, inner.at, (inner.entry % 256) as usize)?;
        return Ok(Token::Past(end));
    }
    long_token(s, inner.at, inner.entry, inner.depth)
}

// One value, at `at`. Its slice is lent on by a copy, which is then made for a container alone.
#[cycle(read_item_read_items)]
fn read_item(s: &[u8], at: usize, depth: usize) -> Result<Item, usize>
    ensures { Reads s.now (shift at (value depth (drop at s.now))) result }
{
    match token_at(s, at, depth)? {
        Token::Past(end) => Ok(Item::Past(end)),
        Token::Headed(head, end) => Ok(Item::Headed(head, end)),
        Token::Holds(count, from, deep) => {
            let lent = s;
            let end = read_items(lent, from, count, deep)?;
            Ok(Item::Past(end))
        }
    }
}

// The n items of a container from `at` on, each of depth at most `depth`.
#[cycle(read_item_read_items)]
fn read_items(s: &[u8], at: usize, n: usize, depth: usize) -> Read
    ensures { result ≡ shift at (items (value depth) n (drop at s.now)) }
{
    let mut end = at;
    let mut left = n;
    // Stays: a run takes several items at once, so that no range counts the turns.
    while 0 < left {
        match read_item(s, end, depth)? {
            Item::Past(next) => {
                end = next;
                left -= 1;
            }
            Item::Headed(head, next) => {
                let run = same_heads(s, head, next, left);
                end = run.end;
                left = run.left - 1;
            }
        }
    }
    Ok(end)
}

// Whether an item with this head stands at `at`, not the last one. The tests are one
// condition: of a count alone the compiler would work out the end of the run by a product.
fn same_head(s: &[u8], at: usize, head: Head, left: usize) -> bool
    requires { (at ≤ length s.now) × (2 ≤ head.size) }
    ensures { result ≡ true → Same s.now at head.first head.second head.size left }
{
    if s.len() - at < head.size {
        return false;
    }
    (s[at] == head.first) & (s[at + 1] == head.second) & (1 < left)
}

// The item from `at` to `next`, the first of `left`, and those after it that have the same head: they are as long.
fn same_heads(s: &[u8], at: usize, next: usize, left: usize) -> Run
    requires { Heads s.now at next × (0 < left) }
    ensures { Ran s.now next left result }
{
    let head = Head {
        first: s[at],
        second: s[at + 1],
        size: next - at,
    };
    let mut end = next;
    let mut rest = left;
    while same_head(s, end, head, rest) {
        end += head.size;
        rest -= 1;
    }
    Run { end, left: rest }
}

// One value at `at`, of depth at most `depth`, read as one item. Integers and short strings, the commonest, are
// answered without a call, in so little code that the compiler puts it into the callers.
pub fn read_value(s: &[u8], at: usize, depth: usize) -> Read
    ensures { result ≡ shift at (value depth (drop at s.now)) }
{
    if at < s.len() {
        let k = msgpack_first_bytes::common_length(s[at]);
        if (0 < k) & (k <= s.len() - at) {
            return Ok(at + k);
        }
    }
    let lent = s;
    read_items(lent, at, 1, depth)
}

// The place of the byte that spoils a value; absent where it is whole.
pub fn place_of(read: Read) -> OptionalNumber
    ensures { result ≡ place_of read }
{
    match read {
        Ok(_) => NO_PLACE,
        Err(place) => OptionalNumber {
            present: true,
            value: place as u64,
        },
    }
}

// .. of the value at `at`, of depth at most `depth`.
#[tactic(auto, unfolding(crate::specs::Spoiled::spoiled_at))]
pub fn spoiled_at(s: &[u8], at: usize, depth: usize) -> OptionalNumber
    ensures { result ≡ spoiled_at depth at s.now }
{
    place_of(read_value(s, at, depth))
}
