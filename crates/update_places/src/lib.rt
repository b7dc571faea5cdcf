// A field of the tuple under work as a place: where its bytes stand, and how many they are.
#![tactic(auto)]

ghost use Rattle.std.specs.Prelude.{◌≡◌, ◌^◌, ◌<◌, take, drop};
ghost use Rattle.msgpack_writing.specs.Put.{Writes};
ghost use Rattle.update_places.specs.Place.{place_of, start_of, length_of, bytes_from};

// Where the list and the work array begin in the numbering of the starts.
pub const IN_LIST: usize = 20480;

pub const IN_WORK: usize = 57344;

pub fn place_of(at: usize, n: usize) -> u32
    ensures { result ≡ place_of at n }
{
    (((at % 0x2_0000) << 15) + n % 0x8000) as u32
}

pub fn start_of(p: u32) -> usize
    ensures { (result ≡ start_of p) × (result < 2 ^ 17) }
{
    (p >> 15) as usize
}

pub fn length_of(p: u32) -> usize
    ensures { (result ≡ length_of p) × (result < 2 ^ 15) }
{
    (p % 0x8000) as usize
}

// n bytes of s from `from` on, or as many as there are.
pub fn part_of(s: &[u8], from: usize, n: usize) -> &[u8]
    ensures { result.now ≡ take n (drop from s.now) }
{
    let rest = &s[from.min(s.len())..];
    &rest[..n.min(rest.len())]
}

// What a place may stand in: the caller's tuple, the caller's list, and the work array.
#[derive(Clone, Copy)]
pub struct Sources<'a> {
    pub tuple: &'a [u8],
    pub list: &'a [u8],
    pub work: &'a [u8],
}

impl<'a> Sources<'a> {
    // n bytes from a start on, or as many as there are.
    pub fn bytes(self, at: usize, n: usize) -> &'a [u8]
        ensures { result.now ≡ bytes_from self.entry.tuple.now self.entry.list.now self.entry.work.now at n }
    {
        if at < IN_LIST {
            return part_of(self.tuple, at, n);
        }
        if at < IN_WORK {
            return part_of(self.list, at - IN_LIST, n);
        }
        part_of(self.work, at - IN_WORK, n)
    }
}

// A copy of n bytes from a start on, into the rest of a buffer.
pub fn copy_from(sources: Sources, at: usize, n: usize, out: &mut [u8], to: usize) -> usize
    ensures { Writes to (bytes_from sources.entry.tuple.now sources.entry.list.now sources.entry.work.now at n) result out.old out.new }
{
    msgpack_writing::write_bytes(out, to, sources.bytes(at, n))
}
