// What a known key must hold, and what a code requires: the two judgements that reading and writing share.
#![tactic(auto)]

ghost use Rattle.std.specs.Prelude.{◌≡◌, option_map};
ghost use Rattle.msgpack_scalars.specs.Start.{start_by};
ghost use Rattle.msgpack_scalars.specs.Header.{header};
ghost use Rattle.frames.specs.Held.{value_held, suits, is_header};
ghost use Rattle.frames.specs.Keys.{line};
ghost use Rattle.frame_rules.specs.Needs.{needs_of, line_at};

use frames::{Line, MAX_32, MAX_64, MAX_BASE, Rule};
use msgpack_scalars::Opening;

#[tactic(auto, unfolding(frames::specs::Held::is_header))]
fn has_header(v: &[u8], opening: Opening) -> bool
    ensures { result ≡ is_header (header (start_by opening) v.now) }
{
    msgpack_scalars::header_at(v, 0, opening).is_some()
}

fn at_most(v: &[u8], limit: u64) -> bool
    ensures { result ≡ suits (Rule.AtMost limit) (value_held (Rule.AtMost limit) v.now) }
{
    match msgpack_scalars::unsigned_at(v, 0) {
        Ok((n, _)) => n <= limit,
        Err(_) => false,
    }
}

// Whether the bytes of a value suit what their key must hold.
#[tactic(auto, unfolding(frames::specs::Held::suits, frames::specs::Held::value_held))]
pub fn suits_rule(rule: Rule, v: &[u8]) -> bool
    ensures { result ≡ suits rule (value_held rule v.now) }
{
    match rule {
        Rule::AtMost(limit) => at_most(v, limit),
        Rule::Array => has_header(v, Opening::Array),
        Rule::String => has_header(v, Opening::String),
        Rule::Anything => true,
    }
}

// The body keys that a code requires; none where there is no such code.
#[tactic(auto, unfolding(crate::specs::Needs::needs_of, crate::specs::Needs::answer, frames::specs::Codes::required, frames::specs::Codes::is_error, frames::specs::Codes::among, frames::specs::Codes::codes))]
pub fn needs_of(code: u64) -> Option<&'static [usize]>
    ensures { option_map (λ s. s.now) result ≡ needs_of code }
{
    match code {
        0x00 => Some(&[]),
        0x01 => Some(&[0x10, 0x12, 0x20]),
        0x02 => Some(&[0x10, 0x21]),
        0x03 => Some(&[0x10, 0x21]),
        0x04 => Some(&[0x10, 0x20, 0x21]),
        0x05 => Some(&[0x10, 0x20]),
        0x06 => Some(&[0x22, 0x21]),
        0x07 => Some(&[0x23, 0x21]),
        0x08 => Some(&[0x27, 0x21]),
        0x09 => Some(&[0x10, 0x21, 0x28]),
        0x0a => Some(&[0x22, 0x21]),
        0x40 => Some(&[]),
        0x8000..=0x8fff => Some(&[0x31]),
        _ => None,
    }
}

// Document 01's tables: the i-th known key and what it must hold, header and then body, each rising;
// past the last, key 0 and anything.
#[tactic(auto, unfolding(crate::specs::Needs::line_at))]
pub fn line_of(i: usize) -> Line
    ensures { result ≡ line_at i }
{
    let (key, rule) = match i {
        0 => (0x00, Rule::AtMost(MAX_64)),
        1 => (0x01, Rule::AtMost(MAX_64)),
        2 => (0x05, Rule::AtMost(MAX_64)),
        3 => (0x10, Rule::AtMost(MAX_32)),
        4 => (0x11, Rule::AtMost(MAX_32)),
        5 => (0x12, Rule::AtMost(MAX_32)),
        6 => (0x13, Rule::AtMost(MAX_32)),
        7 => (0x14, Rule::AtMost(MAX_32)),
        8 => (0x15, Rule::AtMost(MAX_BASE)),
        9 => (0x20, Rule::Array),
        10 => (0x21, Rule::Array),
        11 => (0x22, Rule::String),
        12 => (0x23, Rule::String),
        13 => (0x27, Rule::String),
        14 => (0x28, Rule::Array),
        15 => (0x30, Rule::Anything),
        16 => (0x31, Rule::String),
        _ => (0, Rule::Anything),
    };
    Line { key, rule }
}
