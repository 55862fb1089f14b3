//! Laws of packing and unpacking streams, stated by the clauses of a function with an empty body.

ghost use Rattle.capn_commands.specs.Laws.{PackingGivesOne, UnpackingGivesOne};

/// States that the bytes of an input determine its packed text and its unpacked words. The bytes also determine the
/// ending of each run that does not end with `Memory` or `Io`.
pub fn one_text()
    ensures packing { PackingGivesOne }
    ensures unpacking { UnpackingGivesOne }
{}
