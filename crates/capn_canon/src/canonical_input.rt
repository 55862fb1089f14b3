//! The call `canonicalise`, which makes the canonical bytes of a message in any of the three forms.

ghost use Rattle.std.specs.Prelude.{◌≡◌, ℕ, ◌*◌, ◌+◌, ◌≤◌, None, length, IfOk, IfErr, IsErrOf, MatchResult};
ghost use Rattle.capn_value.specs.Tree.{Tree as Value};
ghost use Rattle.capn_value.specs.FirstCap.{first_cap};
ghost use Rattle.capn_layout.specs.Layout.{canon};
ghost use Rattle.capn_canon.specs.Denotes.{Denotes, Answers};
ghost use Rattle.capn_canon.specs.inner.Outcomes.{IsCanonicalised};
ghost use Rattle.capn_canon.specs.Canonicity.{ReadsBack, PaysItsCost, IsItsOwnForm, IsFormExactlyOf};
ghost use Rattle.capn_canon.specs.Refusal.{IsRefused, IsPaidWithin};
ghost use Rattle.capn_canon.specs.Theorem.{Answered, EqualExactly, OwnForm, WithinBudget};
ghost use Rattle.capn_canon.specs.MemoryNeed.{MayNeedBytesIn};
ghost use Rattle.capn_canon.specs.declared.refusal.Refusal.TheVariants as refusals;

use crate::asked_input::{AskedInput, InputTask};
use crate::canonical::{Canonical, canonical_of};
use crate::form::Form;
use crate::refusal::Refusal;
use capn_target::counted::Asked;
use capn_walk::Limits;
use std::alloc::Allocator;

/// The task of `canonicalise_of`: makes the canonical bytes of the message that was read.
#[derive(Clone, Copy)]
struct CanonicalBytes<A: Allocator + Copy> {
    alloc: A,
}

impl<A: Allocator + Copy> InputTask for CanonicalBytes<A> {
    type Answer = Canonical<A>;

    ghost use Rattle.std.specs.Prelude.{◌+◌, ◌*◌};
    ghost use Rattle.capn_canon.specs.inner.Outcomes.{IsCanonicalised};

    ghost answers = { λ _ m limits r _. IsCanonicalised m limits r (λ c. c.bytes.items) (λ c. c.paid) };

    ghost most = { λ limits. 56 * (limits.budget + 1) + 1 };

    #[inline(always)]
    fn run_asked<M: Asked>(&mut self, message: M, limits: Limits) -> Result<Canonical<A>, Refusal> {
        canonical_of(self.alloc, message, limits)
    }
}

/// Makes the canonical bytes of the value that `bytes` denote in `form`, within `limits`. Returns them with the number
/// of words that the walk paid.
///
/// The refusals are tested in three steps. First the bytes are read. `Bare` refuses bytes that are not bare words.
/// `Packed` refuses bytes that are not a packed text, or that unpack to more words than `limits.message_words` and the
/// longest table allow. `Frame` refuses bytes, unpacked for `Packed`, that begin with no frame of at most
/// `limits.message_words` words, and `Trailing` refuses bytes after the frame. Then the message is walked. `Walk`
/// refuses a message that is not accepted, with a fault that is never `Memory`. Last the value is laid out.
/// `Capability` refuses a value with capabilities, with the index of the first in preorder. `Memory` is returned only
/// if an allocation on `alloc` was refused. No clause can say that.
pub fn canonicalise<A: Allocator + Copy>(
    alloc: A,
    form: Form,
    bytes: &[u8],
    limits: Limits,
) -> Result<Canonical<A>, Refusal>
    // If `result` is `Ok`, `bytes` are the canonical bytes of the one value that the input denotes, and `paid` is the
    // number of words that the walk pays.
    ensures found { IfOk result (λ c. Answers form bytes.now limits c.bytes.items c.paid) }
    // If the bytes denote a value without capabilities, `result` has the canonical bytes, or is `Memory`.
    ensures only { (v : Value) → Denotes form bytes.now limits v → first_cap v ≡ None
        → MatchResult result (λ c. c.bytes.items ≡ canon v) (λ e. e ≡ refusals.Memory) }
    // If `result` is `Err(e)`, the reason that `e` gives is true.
    ensures refused { IfErr result (λ e. IsRefused form bytes.now limits e) }
    // `Memory` is returned only if reading the bytes may need memory, or if the bytes denote a value without
    // capabilities.
    ensures memory { IsErrOf result refusals.Memory → MayNeedBytesIn form bytes.now limits }
    // The walk pays at most the budget, also if the message is refused.
    ensures bounded { MatchResult result (λ c. c.paid ≤ limits.budget) (λ e. IsPaidWithin limits.budget e) }
    ensures short { IfOk result (λ c. length c.bytes.items ≤ 8 * (c.paid + 1)) }
    // Read bare under the same limits, the canonical bytes denote the trimmed value of `v`. The two values differ at
    // most in trailing zero words and trailing null slots of structs.
    ensures reads_back { IfOk result (λ c. (v : Value) → Denotes form bytes.now limits v
        → ReadsBack c.bytes.items limits v) }
    // A walk of the canonical bytes, read bare, pays exactly the cost of the trimmed value of `v`.
    ensures pays { IfOk result (λ c. (v : Value) → Denotes form bytes.now limits v
        → PaysItsCost c.bytes.items limits v) }
    // The canonical bytes of `v` are also the canonical bytes of the trimmed value of `v`.
    ensures own { IfOk result (λ c. (v : Value) → Denotes form bytes.now limits v → IsItsOwnForm c.bytes.items v) }
    // A value that fits and is in range has the same canonical bytes as `v` if and only if it is the same as `v`
    // (`Same`).
    ensures exactly { IfOk result (λ c. (v : Value) → Denotes form bytes.now limits v
        → IsFormExactlyOf c.bytes.items v) }
    // This clause and the next three are the sentences of the README's theorem. Unless `result` is `Memory`, it is `Ok`
    // if and only if the bytes denote a value without capabilities.
    ensures answered { Answered form bytes.now limits result }
    // If `result` is `Ok`, its bytes equal the canonical bytes of another input if and only if the values of both
    // inputs are the same (`Same`).
    ensures equal { IfOk result (λ c. EqualExactly form bytes.now limits c.bytes.items) }
    // The canonical bytes denote a value that is the same as the value of the input (`Same`). A second call on the
    // canonical bytes, bare and under the same limits, returns the same bytes or `Memory`.
    ensures second { IfOk result (λ c. OwnForm form bytes.now limits c) }
    // The number of words paid, in an `Ok` or in a `Walk`, is at most the budget.
    ensures within { WithinBudget limits result }
{
    canonicalise_of(alloc, form, bytes, limits)
}

/// Makes the canonical bytes of the value that `bytes` denote in `form`, within `limits`. Returns the result of
/// [`canonicalise`], which is this call on a slice.
///
/// Here `bytes` are any [`AskedInput`], so the clause `work` bounds how often the message is read, for all passes
/// together. The steps that find the message in the bytes are not counted. (Our own.)
#[inline(always)]
pub fn canonicalise_of<A: Allocator + Copy, B: AskedInput>(
    alloc: A,
    form: Form,
    bytes: B,
    limits: Limits,
) -> Result<Canonical<A>, Refusal>
    // The message must allow 56 * (budget + 1) reads and turns of loops, and one more to start the count. A slice
    // allows any number.
    requires work { B.allows bytes (56 * (limits.budget + 1) + 1) }
    // If `result` is `Ok`, `bytes` are the canonical bytes of the one value that the input denotes, and `paid` is the
    // number of words that the walk pays.
    ensures found { IfOk result (λ c. Answers form (B.bytes bytes) limits c.bytes.items c.paid) }
    // If the bytes denote a value without capabilities, `result` has the canonical bytes, or is `Memory`.
    ensures only { (v : Value) → Denotes form (B.bytes bytes) limits v → first_cap v ≡ None
        → MatchResult result (λ c. c.bytes.items ≡ canon v) (λ e. e ≡ refusals.Memory) }
    // If `result` is `Err(e)`, the reason that `e` gives is true.
    ensures refused { IfErr result (λ e. IsRefused form (B.bytes bytes) limits e) }
    // `Memory` is returned only if reading the bytes may need memory, or if the bytes denote a value without
    // capabilities.
    ensures memory { IsErrOf result refusals.Memory → MayNeedBytesIn form (B.bytes bytes) limits }
    // The walk pays at most the budget, also if the message is refused.
    ensures bounded { MatchResult result (λ c. c.paid ≤ limits.budget) (λ e. IsPaidWithin limits.budget e) }
    ensures short { IfOk result (λ c. length c.bytes.items ≤ 8 * (c.paid + 1)) }
    // Read bare under the same limits, the canonical bytes denote the trimmed value of `v`. The two values differ at
    // most in trailing zero words and trailing null slots of structs.
    ensures reads_back { IfOk result (λ c. (v : Value) → Denotes form (B.bytes bytes) limits v
        → ReadsBack c.bytes.items limits v) }
    // A walk of the canonical bytes, read bare, pays exactly the cost of the trimmed value of `v`.
    ensures pays { IfOk result (λ c. (v : Value) → Denotes form (B.bytes bytes) limits v
        → PaysItsCost c.bytes.items limits v) }
    // The canonical bytes of `v` are also the canonical bytes of the trimmed value of `v`.
    ensures own { IfOk result (λ c. (v : Value) → Denotes form (B.bytes bytes) limits v
        → IsItsOwnForm c.bytes.items v) }
    // A value that fits and is in range has the same canonical bytes as `v` if and only if it is the same as `v`
    // (`Same`).
    ensures exactly { IfOk result (λ c. (v : Value) → Denotes form (B.bytes bytes) limits v
        → IsFormExactlyOf c.bytes.items v) }
    // This clause and the next three are the sentences of the README's theorem. Unless `result` is `Memory`, it is `Ok`
    // if and only if the bytes denote a value without capabilities.
    ensures answered { Answered form (B.bytes bytes) limits result }
    // If `result` is `Ok`, its bytes equal the canonical bytes of another input if and only if the values of both
    // inputs are the same (`Same`).
    ensures equal { IfOk result (λ c. EqualExactly form (B.bytes bytes) limits c.bytes.items) }
    // The canonical bytes denote a value that is the same as the value of the input (`Same`). A second call on the
    // canonical bytes, bare and under the same limits, returns the same bytes or `Memory`.
    ensures second { IfOk result (λ c. OwnForm form (B.bytes bytes) limits c) }
    // The number of words paid, in an `Ok` or in a `Walk`, is at most the budget.
    ensures within { WithinBudget limits result }
{
    let _words = limits.message_words();
    let _budget = limits.budget();
    let _depth = limits.depth();
    let (answer, _task) = bytes.ask_message(alloc, CanonicalBytes { alloc }, form, limits);
    answer
}
