// Where a value broke: three theorems over the definitions that the calls' contracts cite.
#![tactic(auto)]

ghost use Rattle.spoiled_places.specs.First.{EveryPlace};
ghost use Rattle.spoiled_places.specs.Given.{AcceptedAreWhole, GivenExactly};

// A place is that of the first byte that spoils the value: each byte before it is needed and spoils nothing, and with the byte
// there the value is broken, whatever follows.
pub fn the_first_byte_that_spoils_it()
    ensures { EveryPlace }
{}

// A tuple that 11 does not refuse is one whole value of depth 13 at most, a list that 12 does not refuse one of depth 14.
pub fn what_is_accepted_is_whole()
    ensures { AcceptedAreWhole }
{}

// A place is given exactly where a value is broken: with 4 by what reads a value or a frame, and by the update call and the undo call
// where the tuple is broken, or where the tuple is within the rules and the list is broken.
pub fn given_exactly_where_broken()
    ensures { GivenExactly }
{}
