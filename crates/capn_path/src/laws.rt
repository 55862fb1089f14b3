//! The laws of paths. Each law is the contract of an empty function.

ghost use Rattle.capn_path.specs.Laws.{PathsAreOne, HoldersAreOne};

/// States that at most one path belongs to each visit of the walk of a message.
pub fn paths()
    ensures { PathsAreOne }
{}

/// States that each path to the slot of a visit gives exactly one object that holds the slot, unless the path is empty.
pub fn holders()
    ensures { HoldersAreOne }
{}
