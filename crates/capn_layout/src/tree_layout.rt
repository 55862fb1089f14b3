//! The canonical layout of a tree. Any change here that alters canonical bytes makes a new version of the canonical
//! form.

ghost use Rattle.std.specs.Prelude.{◌≡◌, ℕ, Some, None, IfOk, IfErr, OnOk};
ghost use Rattle.capn_value.specs.FirstCap as caps;
ghost use Rattle.capn_layout.specs.Layout.{canon};
ghost use Rattle.capn_layout.specs.LayoutFault.{IsLayoutFault};

use crate::object_layout::canonical_bytes;
use crate::tree_slots::TreeSlots;
use capn_value::{Memory, Tree, first_cap};
use std::alloc::Allocator;
use std::error::Error;
use std::fmt;

/// The reason why a tree has no layout.
#[derive(Clone, Copy, Debug, PartialEq, Eq)]
pub enum LayoutFault {
    /// An allocation was refused.
    Memory,
    /// The tree has a capability, which canonical bytes can't hold. The number is the index of the first capability in
    /// preorder.
    Capability(u32),
}

impl fmt::Display for LayoutFault {
    ghost use Rattle.std.specs.Prelude.{Some};
    ghost use Rattle.capn_layout.specs.Display.{layout_text};

    ghost output = { λ fault. Some (layout_text fault) };

    fn fmt<W: fmt::Write>(&self, f: &mut fmt::Formatter<W>) -> fmt::Result {
        match self {
            LayoutFault::Memory => write!(f, "out of memory"),
            LayoutFault::Capability(index) => write!(f, "capability {index}"),
        }
    }
}

impl Error for LayoutFault {}

/// The greatest height of a tree.
const MOST_HEIGHT: u32 = 256;

/// Returns the canonical bytes of `tree`: one segment with the objects in preorder. The words of a struct are cut after
/// the last nonzero word, and its pointers after the last non-null one. All rows of a list are cut to one size.
///
/// `Capability` is returned if and only if the tree has a capability, with the index of the first capability in
/// preorder. The test is made before any memory is allocated. `Memory` is returned only if the one allocation on
/// `alloc`, for all bytes, was refused.
///
/// Page: canonicalization. Our own: bits past a list's last element are 0, and a list without content points at the
/// next free word.
pub fn layout<A: Allocator + Copy, B: Allocator>(
    alloc: A,
    tree: &Tree<B>,
) -> Result<Vec<u8, A>, LayoutFault>
    ensures found { IfOk result (λ bytes. bytes.items ≡ canon tree.now) }
    ensures free { OnOk result (caps.first_cap tree.now ≡ None) }
    ensures only { (k : ℕ) → caps.first_cap tree.now ≡ Some k
        → result ≡ Err (LayoutFault.Capability k) }
    ensures refused { IfErr result (λ fault. IsLayoutFault tree.now fault) }
{
    let value = tree.value();
    if let Some(index) = first_cap(value) {
        return Err(LayoutFault::Capability(index));
    }
    match canonical_bytes(alloc, TreeSlots::Root(value), MOST_HEIGHT, &mut ()) {
        Ok(bytes) => Ok(bytes),
        Err(Memory) => Err(LayoutFault::Memory),
    }
}
