// Whether the known keys of a header and of a body hold what they must.
#![tactic(auto)]

ghost use Rattle.std.specs.Prelude.{◌≡◌, ◌≤◌};
ghost use Rattle.std.proofs.Math.Seq.{slice};
ghost use Rattle.frames.specs.Limits.{known_keys};
ghost use Rattle.frames.specs.Held.{suits, held_at};
ghost use Rattle.frames.specs.Keys.{header_table, body_table, all_lines};
ghost use Rattle.frames.specs.Reading.{suited};
ghost use Rattle.frame_tables.specs.Tables.{place_in};

use frame_tables::Value;
use frames::{HEADER_KEYS, KNOWN_KEYS, Line};

// Whether the key of a line is absent or holds what it must.
fn key_suits(s: &[u8], table: &[Value], line: Line) -> bool
    ensures { result ≡ suits line.rule (held_at line.rule s.now (place_in table.now line.key)) }
{
    let place = frame_tables::place_in(table, line.key as usize);
    if place.present {
        frame_rules::suits_rule(line.rule, frame_fields::view_of(s, place))
    } else {
        true
    }
}

// The known keys from one on and up to another, in the order of document 01's tables.
fn keys_suit(s: &[u8], table: &[Value], from: usize, to: usize) -> bool
    requires { (from ≤ to) × (to ≤ known_keys) }
    ensures { result ≡ suited (slice from to all_lines) s.now (place_in table.now) }
{
    for i in from..to {
        if !key_suits(s, table, frame_rules::line_of(i)) {
            return false;
        }
    }
    true
}

pub fn header_suits(s: &[u8], table: &[Value]) -> bool
    ensures { result ≡ suited header_table s.now (place_in table.now) }
{
    keys_suit(s, table, 0, HEADER_KEYS)
}

pub fn body_suits(s: &[u8], table: &[Value]) -> bool
    ensures { result ≡ suited body_table s.now (place_in table.now) }
{
    keys_suit(s, table, HEADER_KEYS, KNOWN_KEYS)
}
