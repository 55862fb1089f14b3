//! The laws of values, apart from any call, as empty functions.

ghost use Rattle.capn_value.specs.Laws.{SameExactlyTrimmed, SameOnceTrimmed, TrimmingIsThrifty, FittingIsSixFacts};
ghost use Rattle.capn_value.specs.Laws.{MisfitIsFirst, SameExactlyToGetters, SameToReaders, TrimmedIsToldAlike};

/// States that two values that fit are the same ([`crate::same`]) if and only if they are equal once trimmed. A value
/// is the same as its trimmed value. If a value fits, its trimmed value costs no more, is no higher, and fits. A value
/// fits if and only if it has none of the six misfits. The misfit of a value is the first one that it has.
pub fn trimming()
    ensures same { SameExactlyTrimmed }
    ensures kept { SameOnceTrimmed }
    ensures thrifty { TrimmingIsThrifty }
    ensures fitting { FittingIsSixFacts }
    ensures first { MisfitIsFirst }
{}

/// States that two values are the same if and only if all getters return the same for both along every path. Getters
/// return the kind, each data word and pointer of a struct, and the elements of a list. Of a list of structs, they also
/// return the first bits of each struct's data, as a number of any width, and its first pointer. Past the end of a
/// struct, getters return zero and null. They therefore return the same for a value and for its trimmed value.
pub fn reading()
    ensures exactly { SameExactlyToGetters }
    ensures whole { SameToReaders }
    ensures trimmed { TrimmedIsToldAlike }
{}
