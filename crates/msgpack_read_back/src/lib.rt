// What is written is read back, and no shorter form is read as the same: theorems as contracts, so that the verdict names them.
#![tactic(auto)]

ghost use Rattle.msgpack_read_back.specs.Claims.{NumbersReadBack, StringsReadBack, ContainersReadBack, Shortest};

// Every number from -2^63 to 2^64 - 1, whatever follows it.
pub fn numbers_read_back()
    ensures { NumbersReadBack }
{}

// Every string of fewer than 2^32 bytes.
pub fn strings_read_back()
    ensures { StringsReadBack }
{}

// Every array and map of fewer than 2^32 values or entries.
pub fn containers_read_back()
    ensures { ContainersReadBack }
{}

// Each form that is written, among all that are read as the same.
pub fn forms_are_shortest()
    ensures { Shortest }
{}
