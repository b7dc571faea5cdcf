// What a call answers, and what it writes into the lent buffer.
#![tactic(auto)]

ghost use Rattle.std.specs.Prelude.{◌≡◌};
ghost use Rattle.tuples.specs.Call.{spoiled_in};
ghost use Rattle.update_answers.specs.Seen.{refusal_of, answer_at};

use msgpack_values::{NO_PLACE, OptionalNumber};
use tuples::{Answer, Refusal};

// A refusal's answer, with the operation's index.
pub fn refused(refusal: Refusal, operation: u32) -> Answer
    ensures { result ≡ refusal_of refusal operation }
{
    Answer {
        number: u32::from(refusal),
        operation,
        length: 0,
        place: NO_PLACE,
    }
}

// The place that an answer of this number gives: with 11 and 12 tuple or list is read once more, as one value.
fn spoiled_in(number: u32, tuple: &[u8], list: &[u8]) -> OptionalNumber
    ensures { result ≡ spoiled_in number tuple.now list.now }
{
    match number {
        11 => msgpack_values::spoiled_at(tuple, 0, tuples::TUPLE_DEPTH),
        12 => msgpack_values::spoiled_at(list, 0, tuples::LIST_DEPTH),
        _ => NO_PLACE,
    }
}

// The answer on this tuple and list, with its place.
pub fn with_place(answer: Answer, tuple: &[u8], list: &[u8]) -> Answer
    ensures { result ≡ answer_at (spoiled_in answer.number tuple.now list.now) answer }
{
    Answer {
        place: spoiled_in(answer.number, tuple, list),
        ..answer
    }
}
