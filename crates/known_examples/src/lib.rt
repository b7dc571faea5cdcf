// Document 01's known examples of frames and of updates that are to be proved together.
#![tactic(auto)]

ghost use Rattle.std.specs.Prelude.{◌≡◌, map};
ghost use Rattle.known_examples.specs.Table.{answered, table};

// What the calls answer on these inputs is what document 01 says.
pub fn known_examples()
    ensures { map answered table ≡ table }
{}
