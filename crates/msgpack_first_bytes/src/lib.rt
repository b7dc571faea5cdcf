// The first byte of a MessagePack value: a table with an entry for each, and the decision over ranges
// that it is held to.
#![tactic(auto)]

mod table;

ghost use Rattle.std.specs.Prelude.{◌≡◌, eqb, ◌+◌, ◌*◌, ◌^◌, ◌<◌, ◌≤◌};
ghost use Rattle.msgpack_first_bytes.specs.FirstByte.{form_of, same_kind};
ghost use Rattle.msgpack_first_bytes.specs.Entry.{entry_of, Told, positive_fixint, array_of_one, common_length};
ghost use Rattle.msgpack_first_bytes.specs.Rows.{four, row_of};

// What a value is that holds no other value.
#[derive(Clone, Copy, PartialEq, Eq)]
pub enum Kind {
    Nil,
    Boolean,
    Unsigned,
    Signed,
    Float32,
    Float64,
    String,
    Bin,
    Ext,
}

// What a first byte says: the kind, the number of length bytes that follow it, and what is due
// by the first byte alone, in bytes (an ext's type is one) or, of an array or a map, in values.
#[derive(Clone, Copy, PartialEq, Eq)]
pub enum Form {
    Unused,
    Scalar(Kind, usize, usize),
    Array(usize, usize),
    Map(usize, usize),
}

fn power_of_two(k: u8) -> usize
    requires { k < 5 }
    ensures { (result ≡ 2 ^ k) × (result ≤ 16) }
{
    1 << k
}

// The decision over ranges: the plain reference that the table is held to. Nothing that runs calls it.
pub fn form_by_ranges(b: u8) -> Form
    ensures { result ≡ form_of b }
{
    match b {
        0x00..=0x7f => Form::Scalar(Kind::Unsigned, 0, 0),
        0x80..=0x8f => Form::Map(0, ((b - 0x80) << 1) as usize),
        0x90..=0x9f => Form::Array(0, (b - 0x90) as usize),
        0xa0..=0xbf => Form::Scalar(Kind::String, 0, (b - 0xa0) as usize),
        0xc0 => Form::Scalar(Kind::Nil, 0, 0),
        0xc1 => Form::Unused,
        0xc2..=0xc3 => Form::Scalar(Kind::Boolean, 0, 0),
        0xc4..=0xc6 => Form::Scalar(Kind::Bin, power_of_two(b - 0xc4), 0),
        0xc7..=0xc9 => Form::Scalar(Kind::Ext, power_of_two(b - 0xc7), 1),
        0xca => Form::Scalar(Kind::Float32, 0, 4),
        0xcb => Form::Scalar(Kind::Float64, 0, 8),
        0xcc..=0xcf => Form::Scalar(Kind::Unsigned, 0, power_of_two(b - 0xcc)),
        0xd0..=0xd3 => Form::Scalar(Kind::Signed, 0, power_of_two(b - 0xd0)),
        0xd4..=0xd8 => Form::Scalar(Kind::Ext, 0, 1 + power_of_two(b - 0xd4)),
        0xd9..=0xdb => Form::Scalar(Kind::String, power_of_two(b - 0xd9), 0),
        // Two and four length bytes, so from 2 ^ 1 on.
        0xdc..=0xdd => Form::Array(power_of_two(b - 0xdb), 0),
        0xde..=0xdf => Form::Map(power_of_two(b - 0xdd), 0),
        0xe0..=0xff => Form::Scalar(Kind::Signed, 0, 0),
    }
}

// The table, with what is proved of it once, over all its entries.
fn first_bytes() -> [u16; 256]
    ensures { Told result }
{
    table::FIRST_BYTES
}

// The entry as it stands in the table, for the page. Each call lays the whole table down first.
pub fn page_entry(b: u8) -> u16
    ensures { result ≡ entry_of b }
{
    let t = first_bytes();
    t[b as usize]
}

// Entries one after the other, the last of them in the lowest digits.
fn with_entry(n: u64, e: u16) -> u64
    requires { n < 2 ^ 48 }
    ensures { (result ≡ n * 65536 + e) × (result < (n + 1) * 65536) }
{
    (n << 16) + e as u64
}

// The four entries from `i` on, the first of them in the lowest digits.
fn four_from(t: &[u16; 256], i: usize) -> u64
    requires { i + 4 ≤ 256 }
    ensures { result ≡ four t.now i }
{
    with_entry(
        with_entry(with_entry(with_entry(0, t[i + 3]), t[i + 2]), t[i + 1]),
        t[i],
    )
}

// The four entries of the k-th row from 0x80 on. Each place is a constant, so that the compiler lays the
// rows down and makes none when it is asked for.
fn row(k: u8) -> u64
    requires { k < 32 }
    ensures { result ≡ row_of k }
{
    let t = first_bytes();
    match k {
        0 => four_from(&t, 0x80),
        1 => four_from(&t, 0x84),
        2 => four_from(&t, 0x88),
        3 => four_from(&t, 0x8c),
        4 => four_from(&t, 0x90),
        5 => four_from(&t, 0x94),
        6 => four_from(&t, 0x98),
        7 => four_from(&t, 0x9c),
        8 => four_from(&t, 0xa0),
        9 => four_from(&t, 0xa4),
        10 => four_from(&t, 0xa8),
        11 => four_from(&t, 0xac),
        12 => four_from(&t, 0xb0),
        13 => four_from(&t, 0xb4),
        14 => four_from(&t, 0xb8),
        15 => four_from(&t, 0xbc),
        16 => four_from(&t, 0xc0),
        17 => four_from(&t, 0xc4),
        18 => four_from(&t, 0xc8),
        19 => four_from(&t, 0xcc),
        20 => four_from(&t, 0xd0),
        21 => four_from(&t, 0xd4),
        22 => four_from(&t, 0xd8),
        23 => four_from(&t, 0xdc),
        24 => four_from(&t, 0xe0),
        25 => four_from(&t, 0xe4),
        26 => four_from(&t, 0xe8),
        27 => four_from(&t, 0xec),
        28 => four_from(&t, 0xf0),
        29 => four_from(&t, 0xf4),
        30 => four_from(&t, 0xf8),
        31..=255 => four_from(&t, 0xfc),
    }
}

// ---- Tests of first bytes that were measured to pay (docs/DECISIONS.md, 'Values'). Each says what the entry says.

// Whether b is a number from 0 to 127.
pub fn is_positive_fixint(b: u8) -> bool
    ensures { result ≡ eqb (entry_of b) positive_fixint }
{
    b < 0x80
}

// Whether b begins an array of one value.
pub fn is_array_of_one(b: u8) -> bool
    ensures { result ≡ eqb (entry_of b) array_of_one }
{
    b == 0x91
}

// The length of the integer or short string that b begins; 0 where it begins another value.
pub fn common_length(b: u8) -> usize
    ensures { result ≡ common_length (entry_of b) }
{
    if b < 0x80 {
        return 1;
    }
    if 0xe0 <= b {
        return 1;
    }
    if b < 0xa0 {
        return 0;
    }
    if b < 0xc0 {
        return (b - 0x9f) as usize;
    }
    if b < 0xcc {
        return 0;
    }
    if b < 0xd4 {
        return 1 + (1usize << (b % 4));
    }
    0
}

// ---- The table, looked up

// The entry of a first byte, as the table has it. The first 128 entries are one, told by a test: it
// is the commonest entry, and needs no look-up.
pub fn entry(b: u8) -> u16
    ensures { result ≡ entry_of b }
{
    if is_positive_fixint(b) {
        let t = first_bytes();
        return t[0];
    }
    ((row((b - 0x80) >> 2) >> ((b % 4) << 4)) % 0x1_0000) as u16
}

// What a first byte says, by its entry.
pub fn form_of(b: u8) -> Form
    ensures { result ≡ form_of b }
{
    let e = entry(b);
    let width = (e >> 12) as usize;
    let fixed = (e % 256) as usize;
    // Stays: one match over the digit; a `TryFrom` of it for `Kind` would need a second one for arrays and maps.
    match (e >> 8) % 16 {
        0 => Form::Scalar(Kind::Nil, width, fixed),
        1 => Form::Scalar(Kind::Boolean, width, fixed),
        2 => Form::Scalar(Kind::Unsigned, width, fixed),
        3 => Form::Scalar(Kind::Signed, width, fixed),
        4 => Form::Scalar(Kind::Float32, width, fixed),
        5 => Form::Scalar(Kind::Float64, width, fixed),
        6 => Form::Scalar(Kind::String, width, fixed),
        7 => Form::Scalar(Kind::Bin, width, fixed),
        8 => Form::Scalar(Kind::Ext, width, fixed),
        9 => Form::Array(width, fixed),
        10 => Form::Map(width, fixed),
        _ => Form::Unused,
    }
}

// Whether two kinds are the same.
pub fn same_kind(a: Kind, b: Kind) -> bool
    ensures { result ≡ same_kind a b }
{
    a == b
}
