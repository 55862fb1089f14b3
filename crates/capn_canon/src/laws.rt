//! The laws of canonical bytes, as empty functions.

ghost use Rattle.capn_canon.specs.Laws.{CanonIsForm, EqualExactlySame, DenotedHaveForms, DenoteOne};
ghost use Rattle.capn_canon.specs.Laws.{DenotedAreNotRefused, RefusedForOneReason};
ghost use Rattle.capn_canon.specs.Laws.{EachIsAnswered, AnswersAreEqualExactly, AnswersAreOwnForms};
ghost use Rattle.capn_canon.specs.Laws.{WalksAreWithinBudgets, IntoIsDecided, WordsHaveTheSameBytes};
ghost use Rattle.capn_canon.specs.Laws.{CanonicalExactlyByPage, CanonIsThePageForm, AnswersFollowThePage};
ghost use Rattle.capn_canon.specs.Laws.{PageFormsDenote, CheckIsOfThePage, SurveyIsOfThePage};
ghost use Rattle.capn_canon.specs.Laws.{CanonIsWhatIsTold, PageFormsAreWhatIsTold, AnswersAreEqualToGetters};
ghost use Rattle.capn_canon.specs.Laws.{AnswersTellTheSame};

use std::alloc::Allocator;

/// States the theorem of the README. Each sentence of the theorem holds of every result that the clauses `found` and
/// `refused` of `canonicalise` allow.
pub fn theorem<A: Allocator>()
    ensures answered { EachIsAnswered A }
    ensures equal { AnswersAreEqualExactly A }
    ensures second { AnswersAreOwnForms A }
    ensures within { WalksAreWithinBudgets A }
{}

/// States that the message, the limits and the buffer decide the result of `canonical_into`. The clauses `written`,
/// `refused` and `unchanged` allow only one result and one content of the buffer.
pub fn decision()
    ensures { IntoIsDecided }
{}

/// States that the canonical bytes of a value read back as that value, trimmed. The trimmed value has the same
/// canonical bytes. Two values have equal canonical bytes if and only if they differ at most in trailing zero words and
/// trailing null slots of structs.
pub fn canonicity()
    ensures form { CanonIsForm }
    ensures exactly { EqualExactlySame }
{}

/// States that bytes denote at most one value. The value fits, and costs at most what the walk of the bytes pays. If
/// the value has no capability, the bytes are refused only by `Memory`. All refusals of the same bytes other than
/// `Memory` are equal.
pub fn denotation()
    ensures form { DenotedHaveForms }
    ensures one { DenoteOne }
    ensures answered { DenotedAreNotRefused }
    ensures refused { RefusedForOneReason }
{}

/// States that the reader of messages and the packer give a word the same 8 bytes.
pub fn spelling()
    ensures { WordsHaveTheSameBytes }
{}

/// States that words are the canonical bytes of the value that they denote if and only if they follow the rules of the
/// encoding page. Words that follow the rules denote a value without capabilities. Each value without capabilities has
/// exactly one form that follows the rules. So each result follows the rules, and an `Ok` result of `is_canonical` is
/// `true` if and only if the input follows the rules.
pub fn page()
    ensures exactly { CanonicalExactlyByPage }
    ensures denoted { PageFormsDenote }
    ensures only { CanonIsThePageForm }
    ensures answers { AnswersFollowThePage }
    ensures check { CheckIsOfThePage }
    ensures survey { SurveyIsOfThePage }
{}

/// States that two results are equal if and only if the getters return the same from the values of both, along every
/// path. Two messages that follow the rules of the encoding page have equal bytes if and only if the getters return the
/// same from both. The getters return the same from the value of a result as from the value of its input.
///
/// The law speaks of each reader that computes what it answers from these getters (`Getters.antt` of capn_value). One
/// of them reads a list of structs as the numbers or the pointers that its elements were before the schema changed,
/// and finds zero or null where the structs are too short. A reader that rejects such structs tests how many words or
/// pointers a struct was stored with. No getter tells that, and the law does not speak of such a reader: it may
/// accept a message and reject the canonical bytes of the message.
pub fn readers<A: Allocator>()
    ensures canon { CanonIsWhatIsTold }
    ensures page { PageFormsAreWhatIsTold }
    ensures equal { AnswersAreEqualToGetters A }
    ensures alike { AnswersTellTheSame A }
{}
