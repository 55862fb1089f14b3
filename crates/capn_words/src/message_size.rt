//! The number of words in all segments of a message.

ghost use Rattle.std.specs.Prelude.{◌≡◌};
ghost use Rattle.capn_words.specs.Message.{total};

use crate::space::Space;

/// Returns the number of words in all segments of `space` together. Takes no memory.
#[tactic(auto, using(std::proofs::lemmas::List::Sums::sum_by_more_le, std::proofs::lemmas::List::Sums::fold_more))]
pub fn total_words<S: Space>(space: &S) -> u32
    ensures { result ≡ total (S.message space.now) }
{
    let mut total = 0;
    for segment in 0..space.segments() {
        if let Some(words) = space.words(segment) {
            total += words;
        }
    }
    total
}
