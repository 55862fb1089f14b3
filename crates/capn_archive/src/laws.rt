//! Laws of runs over an archive, stated by the clauses of functions with empty bodies.

ghost use Rattle.capn_archive.specs.Laws.{FilteredIsListed, FiltersAccepted, OneArchive, OneFilter, OneUniq};

/// States that the options and the input of a run determine the text and the result, for each kind of run over an
/// archive.
pub fn one_text()
    ensures archive { OneArchive }
    ensures uniq { OneUniq }
    ensures filter { OneFilter }
{}

/// States two laws of `filter` over a stream, packed or not. `filter` writes only frames of messages that it lets
/// through. `list` with the same limits accepts all messages that `filter` writes.
pub fn let_through()
    ensures accepted { FiltersAccepted }
    ensures listed { FilteredIsListed }
{}
