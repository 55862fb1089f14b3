//! The progress of the one pass over a layout: the next free word, the words left to pay, and the slots to test. Any
//! change here that alters which bytes it accepts makes a new version of the canonical form.

ghost use Rattle.std.specs.Prelude.{◌≡◌, ◌+◌, ◌-◌, ◌^◌, ◌<◌, ◌≤◌, IfSome, IsSome, IsTrue, min};

use crate::own_words_test::Tag;

/// The progress of a pass over a layout.
#[derive(Clone, Copy)]
pub struct Progress {
    /// The next free word.
    pub next: u32,
    /// The number of words that may still be paid.
    pub left: u32,
    /// The number of slots visited.
    pub visits: u32,
}

/// Slots of one object that are still to be tested, and the progress of the pass that tests them.
#[derive(Clone, Copy)]
pub struct Pass {
    /// The first slot.
    pub from: u32,
    /// The word after the last slot.
    pub end: u32,
    /// The limit on depth that remains for the objects below the slots.
    pub depth: u32,
    /// The next free word, at which the objects below the slots have to begin.
    pub next: u32,
    /// The number of words that may still be paid.
    pub left: u32,
    /// The number of slots visited. All slots of the object count as visited from the beginning.
    pub visits: u32,
}

/// Rows of a list of structs whose slots are still to be tested.
#[derive(Clone, Copy)]
pub struct RowPass {
    /// The number of rows, and the numbers of words and of slots in each row.
    pub tag: Tag,
    /// The words of all rows, and the progress of the pass that tests their slots.
    pub pass: Pass,
}

/// Lowers `least` to `depth` if `DEEP` is set and `depth` is less. `depth` is the depth left below an object, and
/// `least` the least such depth so far.
#[inline(always)]
pub fn lower<const DEEP: bool>(least: &mut u32, depth: u32)
    ensures { IsTrue DEEP → least.new ≡ min least.old depth }
{
    if DEEP && depth < *least {
        *least = depth;
    }
}

impl Pass {
    /// Returns the progress of the pass, without its slots.
    #[inline(always)]
    pub fn here(self) -> Progress
        ensures { result ≡ record { next = self.next; left = self.left; visits = self.visits } }
    {
        Progress {
            next: self.next,
            left: self.left,
            visits: self.visits,
        }
    }

    /// Returns the pass over the slots after the first. `progress` is the progress after everything below the first
    /// slot.
    #[inline(always)]
    pub fn behind(self, progress: Progress) -> Pass
        requires { self.from < 2 ^ 29 }
        ensures { result ≡ record {
          from = self.from + 1;
          end = self.end;
          depth = self.depth;
          next = progress.next;
          left = progress.left;
          visits = progress.visits;
        } }
    {
        Pass {
            from: self.from + 1,
            end: self.end,
            depth: self.depth,
            next: progress.next,
            left: progress.left,
            visits: progress.visits,
        }
    }

    /// Returns the progress after an object that ends before word `end`, costs `price` and has `slots` slots. Returns
    /// `None` if `price` is above `self.left`.
    #[inline(always)]
    pub fn paid(self, price: u64, end: u32, slots: u32) -> Option<Progress>
        requires { self.visits + slots < 2 ^ 32 }
        ensures found { IfSome result (λ q.
            (q.next ≡ end) × (q.left + price ≡ self.left) × (q.visits ≡ self.visits + slots)) }
        ensures only { price ≤ self.left → IsSome result }
    {
        if price > self.left as u64 {
            return None;
        }
        Some(Progress {
            next: end,
            left: self.left - price as u32,
            visits: self.visits + slots,
        })
    }
}
