// Keys that a frame may leave out: two theorems over the definitions that the calls' contracts cite.
#![tactic(auto)]

ghost use Rattle.frame_absent_keys.specs.Absent.{AbsentKeys};
ghost use Rattle.frame_absent_keys.specs.Before.{Narrowed};

// Index, offset, iterator and index base: an absent one counts as 0, is told as absent, and is left out of what is written.
pub fn absent_counts_as_0()
    ensures { AbsentKeys }
{}

// Against the required keys of document 01: a frame is answered as before, or was refused with 10 and is now read. A record is
// answered as before, or was refused with 10 and is now written, or refused with 3 or 18, which come after 10.
pub fn only_10_is_narrowed()
    ensures { Narrowed }
{}
