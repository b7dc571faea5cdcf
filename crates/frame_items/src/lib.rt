// What a known key of a record holds: whether it is sound, suits its rule, is written, and how long it is then.
#![tactic(auto)]

ghost use Rattle.std.specs.Prelude.{◌≡◌, ◌+◌};
ghost use Rattle.frames.specs.Held.{number, bytes as encoding, suits, encoded};
ghost use Rattle.frames.specs.Writing.{sound};
ghost use Rattle.frame_items.specs.Content.{held_of, is_written, pair_length, capped};

use frames::{Place, Rule};

// What a known key holds: nothing, a place outside its bytes, a number, or the value at a place.
#[derive(Clone, Copy)]
pub enum Content {
    Absent,
    Outside,
    Number(u64),
    View(Place),
}

#[derive(Clone, Copy)]
pub struct KnownKey {
    pub key: u8,
    pub rule: Rule,
    pub content: Content,
}

// 4, of one value: whole, and nothing after it.
fn view_sound(v: &[u8]) -> bool
    ensures { result ≡ sound (encoding v.now) }
{
    // Stays: `is_ok_and(|end| end == v.len())` in place of the match: the proof did not get at the closure's contract.
    match msgpack_values::read_value(v, 0, frames::HELD_DEPTH) {
        Ok(end) => end == v.len(),
        Err(_) => false,
    }
}

#[tactic(auto, unfolding(crate::specs::Content::held_of, frames::specs::Writing::sound))]
pub fn is_sound(bytes: &[u8], content: Content) -> bool
    ensures { result ≡ sound (held_of bytes.now content) }
{
    match content {
        Content::Absent | Content::Number(_) => true,
        Content::Outside => false,
        Content::View(place) => view_sound(frame_fields::view_of(bytes, place)),
    }
}

// 9, of a number and of a value.
#[tactic(auto, unfolding(frames::specs::Held::suits))]
fn number_suits(n: u64, rule: Rule) -> bool
    ensures { result ≡ suits rule (number n) }
{
    match rule {
        Rule::AtMost(limit) => n <= limit,
        Rule::Array | Rule::String | Rule::Anything => false,
    }
}

#[tactic(auto, unfolding(frames::specs::Held::suits, frames::specs::Held::value_held))]
fn view_suits(v: &[u8], rule: Rule) -> bool
    ensures { result ≡ suits rule (encoding v.now) }
{
    match rule {
        Rule::AtMost(_) => false,
        Rule::Array | Rule::String | Rule::Anything => frame_rules::suits_rule(rule, v),
    }
}

#[tactic(auto, unfolding(crate::specs::Content::held_of, frames::specs::Held::suits))]
pub fn content_suits(bytes: &[u8], rule: Rule, content: Content) -> bool
    ensures { result ≡ suits rule (held_of bytes.now content) }
{
    match content {
        Content::Absent => true,
        Content::Outside => false,
        Content::Number(n) => number_suits(n, rule),
        Content::View(place) => view_suits(frame_fields::view_of(bytes, place), rule),
    }
}

#[tactic(auto, unfolding(crate::specs::Content::is_written))]
pub fn is_written(content: Content) -> bool
    ensures { result ≡ is_written content }
{
    match content {
        Content::Absent | Content::Outside => false,
        Content::Number(_) | Content::View(_) => true,
    }
}

// A value's length with its key's byte.
#[tactic(auto, unfolding(crate::specs::Content::capped))]
fn with_key(n: usize) -> usize
    ensures { result ≡ capped (n + 1) }
{
    n.min(frames::MAX_SIZE) + 1
}

// How many bytes a key and what it holds take, counted up to one more than a frame has.
#[tactic(auto, unfolding(crate::specs::Content::held_of, frames::specs::Held::encoded, crate::specs::Content::pair_length, crate::specs::Content::capped))]
pub fn pair_length(bytes: &[u8], content: Content) -> usize
    ensures { result ≡ capped (pair_length (encoded (held_of bytes.now content))) }
{
    match content {
        Content::Absent | Content::Outside => 0,
        Content::Number(n) => with_key(msgpack_writing::unsigned_length(n)),
        Content::View(place) => with_key(frame_fields::view_of(bytes, place).len()),
    }
}
