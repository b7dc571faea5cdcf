// The known keys of a record by their order, header and then body.
#![tactic(auto)]

ghost use Rattle.std.specs.Prelude.{◌≡◌};
ghost use Rattle.frame_items.specs.Content.{number_content, place_content, content_at, known_key_at};

use frame_items::{Content, KnownKey};
use frames::{Frame, Line, Place};
use msgpack_values::OptionalNumber;

#[tactic(auto, unfolding(frame_items::specs::Content::number_content))]
fn number_content(n: OptionalNumber) -> Content
    ensures { result ≡ number_content n }
{
    if n.present {
        Content::Number(n.value)
    } else {
        Content::Absent
    }
}

// The tests subtract, since a sum of start and length could wrap.
fn place_content(bytes: &[u8], place: Place) -> Content
    ensures { result ≡ place_content bytes.now place }
{
    if !place.present {
        return Content::Absent;
    }
    if bytes.len() < place.start || bytes.len() - place.start < place.length {
        return Content::Outside;
    }
    Content::View(place)
}

// Stays: frame and bytes as two parameters, here, in `frame_judging` and in `frame_writing`: `write_frame` is lent them apart, and each clause names each by itself.
// What the i-th known key holds, in the order of document 01's tables; past the last nothing.
#[tactic(auto, unfolding(frame_items::specs::Content::content_at))]
fn content_of(frame: Frame, bytes: &[u8], i: usize) -> Content
    ensures { result ≡ content_at frame bytes.now i }
{
    match i {
        0 => Content::Number(frame.code),
        1 => number_content(frame.sync),
        2 => number_content(frame.schema_version),
        3 => number_content(frame.space),
        4 => number_content(frame.index),
        5 => number_content(frame.limit),
        6 => number_content(frame.offset),
        7 => number_content(frame.iterator),
        8 => number_content(frame.index_base),
        9 => place_content(bytes, frame.key),
        10 => place_content(bytes, frame.tuple),
        11 => place_content(bytes, frame.function),
        12 => place_content(bytes, frame.user),
        13 => place_content(bytes, frame.expression),
        14 => place_content(bytes, frame.ops),
        15 => place_content(bytes, frame.data),
        16 => place_content(bytes, frame.error),
        _ => Content::Absent,
    }
}

// The i-th known key with what it must hold and what it holds; past the last, key 0 and nothing.
#[tactic(auto, unfolding(frame_items::specs::Content::known_key_at))]
pub fn known_key(frame: Frame, bytes: &[u8], i: usize) -> KnownKey
    ensures { result ≡ known_key_at frame bytes.now i }
{
    let Line { key, rule } = frame_rules::line_of(i);
    KnownKey {
        key,
        rule,
        content: content_of(frame, bytes, i),
    }
}
