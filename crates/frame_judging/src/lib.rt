// What the writer refuses, judged over a record: its values, their types, its required keys, its length.
#![tactic(auto)]

ghost use Rattle.std.specs.Prelude.{◌≡◌, ℕ, ◌+◌};
ghost use Rattle.frames.specs.Held.{all, encoded, is_some, locate};
ghost use Rattle.frames.specs.Keys.{header_items, body_items};
ghost use Rattle.frame_items.specs.Content.{capped};
ghost use Rattle.frame_judging.specs.Parts.{keys_of, items_of};
ghost use Rattle.frame_judging.specs.Judged.{judgement_of};

use frame_items::KnownKey;
use frames::{Frame, HEADER_KEYS, KNOWN_KEYS, MAX_SIZE};

// The two maps of a frame.
#[derive(Clone, Copy)]
pub enum Part {
    Header,
    Body,
}

// What the writer asks of a run of known keys: 4, 9, how many pairs it writes, and how long they
// are together, counted up to one more than a frame has.
#[derive(Clone, Copy)]
pub struct Judgement {
    pub sound: bool,
    pub suited: bool,
    pub count: u32,
    pub length: usize,
}

// The known keys of a part, by their order: from one on and up to another.
pub fn keys_of(part: Part) -> (usize, usize)
    ensures { result ≡ keys_of part }
{
    match part {
        Part::Header => (0, HEADER_KEYS),
        Part::Body => (HEADER_KEYS, KNOWN_KEYS),
    }
}

// Whether the body holds a key.
fn holds(frame: Frame, bytes: &[u8], key: usize) -> bool
    ensures { result ≡ is_some (encoded (locate (body_items frame bytes.now) key)) }
{
    for i in HEADER_KEYS..KNOWN_KEYS {
        let known = frame_keys::known_key(frame, bytes, i);
        if key == usize::from(known.key) {
            return frame_items::is_written(known.content);
        }
    }
    false
}

// 10
pub fn holds_all(frame: Frame, bytes: &[u8], keys: &[usize]) -> bool
    ensures { result ≡ all (λ (k : ℕ). is_some (encoded (locate (body_items frame bytes.now) k))) keys.now }
{
    keys.iter().all(|key| holds(frame, bytes, *key))
}

#[tactic(auto, unfolding(frame_items::specs::Content::capped))]
fn capped_sum(a: usize, b: usize) -> usize
    ensures { result ≡ capped (a + b) }
{
    a.saturating_add(b).min(MAX_SIZE + 1)
}

// One pass over the keys of a part, since looking a key up takes longest.
fn judged(frame: Frame, bytes: &[u8], part: Part) -> Judgement
    ensures { result ≡ judgement_of (items_of part frame bytes.now) }
{
    let (from, to) = keys_of(part);
    let mut sound = true;
    let mut suited = true;
    let mut count: u32 = 0;
    let mut length: usize = 0;
    for i in from..to {
        let KnownKey { rule, content, .. } = frame_keys::known_key(frame, bytes, i);
        sound &= frame_items::is_sound(bytes, content);
        suited &= frame_items::content_suits(bytes, rule, content);
        count += u32::from(frame_items::is_written(content));
        length = capped_sum(length, frame_items::pair_length(bytes, content));
    }
    Judgement {
        sound,
        suited,
        count,
        length,
    }
}

pub fn header_judged(frame: Frame, bytes: &[u8]) -> Judgement
    ensures { result ≡ judgement_of (header_items frame) }
{
    judged(frame, bytes, Part::Header)
}

pub fn body_judged(frame: Frame, bytes: &[u8]) -> Judgement
    ensures { result ≡ judgement_of (body_items frame bytes.now) }
{
    judged(frame, bytes, Part::Body)
}

// How long header and body are, each with a header of one byte.
pub fn contents_length(header: usize, body: usize) -> usize
    ensures { result ≡ capped (capped (header + body) + 2) }
{
    capped_sum(capped_sum(header, body), 2)
}
