//! The laws of walks, for the crates that use this crate. Each law is the contract of an empty function.

ghost use Rattle.std.specs.Prelude.{ℕ, List};
ghost use Rattle.capn_words.specs.declared.space.Place.{Place};
ghost use Rattle.capn_value.specs.Tree.{Tree};
ghost use Rattle.capn_target.specs.declared.target.Target.{Target};
ghost use Rattle.capn_walk.specs.Laws as laws;
ghost use Rattle.capn_walk.specs.ShownValue.{ViewsShow};
ghost use Rattle.capn_walk.specs.Index.{IndexesAreReadable, IndexesFollowVisits};
ghost use Rattle.capn_walk.specs.IndexValues.{IndexesSayValues, EntriesSayValues};

/// States that a view of a slot shows the value at that slot.
pub fn views_show_values()
    ensures { (message : List (List ℕ)) (at : Place) (found : Target) (v : Tree) → ViewsShow message at found v }
{}

/// States the laws of values. An accepted message has a value at its root. There is at most one value at a place, one
/// list of values in consecutive slots, and one list of bodies in consecutive rows. Each number of a value is in the
/// range of its type. The value of an accepted message fits in a message, and costs at most the number of words that
/// the walk pays. The least depth limit with which a message is accepted is the height of the message's value.
pub fn values()
    ensures readable { laws.AcceptedAreReadable }
    ensures one { laws.PlacesHaveOneValue }
    ensures slots { laws.SlotsHaveOneValue }
    ensures rows { laws.RowsHaveOneValue }
    ensures in_range { laws.ValuesAreInRange }
    ensures fit { laws.ValuesFit }
    ensures cheap { laws.ValuesAreCheap }
    ensures deep { laws.DepthsAreHeights }
{}

/// States the laws of targets. The target of the pointer at a place of a message lies inside a segment of the message.
/// If the target is content, the value of that content is the value at the place. There are exactly three ways in which
/// a pointer names content: near, by a landing pad of one word, or by a landing pad of two words.
pub fn targets()
    ensures inside { laws.TargetsLieInside }
    ensures content { laws.ContentIsValue }
    ensures ways { laws.ContentByThreeWays }
{}

/// States the laws of verdicts. No message is both accepted and refused. For each budget, either all visits are within
/// the budget, or exactly one visit is the stop of the walk. The fault of a refused message is never `Memory`.
pub fn verdicts()
    ensures apart { laws.Apart }
    ensures decided { laws.Decided }
    ensures one { laws.StopsAreOne }
    ensures their_words { laws.RefusedForTheirWords }
{}

/// States the laws of indexes. The index of an accepted message begins with the entry of the root. The content of each
/// entry lies inside a segment of the message. The entries of an object's slots follow the object's own entry. Each
/// slot's entry has the target of that slot. The span of a slot's entry leads to the entry of the next slot. There is
/// one entry for each visit, in order. The entries and the words together give the value of the message, and the value
/// at each entry.
pub fn indexes()
    ensures readable { IndexesAreReadable }
    ensures visits { IndexesFollowVisits }
    ensures values { IndexesSayValues }
    ensures each { EntriesSayValues }
{}
