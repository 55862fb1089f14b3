//! The measured operations, and their inputs.

use crate::calls::{
    canonical, changed, checked, compared, copied, first_byte, indexed, longer, packed, paid,
    received, roomed, segments_of, told, tree_of, unpacked, walked,
};
use anyhow::{Result, anyhow};
use capn_value::{Tree, show};
use std::alloc::Global;

/// An operation on a message, a stream, a tree, canonical bytes or packed bytes.
#[derive(Clone, Copy)]
pub(crate) enum Operation {
    /// A copy of the framed message's bytes, whose cost the other operations are compared with.
    Copy,
    /// The message that `first` reads from its frame.
    First,
    /// The message, read by a framer in chunks of 64 KiB.
    Framer,
    /// The price of reading the message.
    Survey,
    /// A vector of one index entry for each word, whose cost `Index` is compared with.
    Room,
    /// The index of the message, with the vector for its entries.
    Index,
    /// The message as a tree, which is freed.
    Walk,
    /// The canonical bytes of the message.
    Canonical,
    /// The test of canonical bytes.
    IsCanonical,
    /// The test of bytes that are not canonical, because a word follows the canonical bytes.
    NotCanonical,
    /// The SHA-256 of the message's canonical bytes.
    Hash,
    /// The text of the message's tree.
    Show,
    /// The packed text of the framed message's words.
    Pack,
    /// The words of the packed text.
    Unpack,
    /// The program's run of `check` over a stream.
    Check,
    /// The comparison of the message with itself. The message is surveyed once for each side.
    Same,
    /// The comparison of the message with one that differs in its first data word.
    NotSame,
}

impl Operation {
    /// The operations on one message that `times` measures.
    pub(crate) const ALL: [Operation; 14] = [
        Operation::Copy,
        Operation::First,
        Operation::Framer,
        Operation::Survey,
        Operation::Room,
        Operation::Index,
        Operation::Walk,
        Operation::Canonical,
        Operation::IsCanonical,
        Operation::NotCanonical,
        Operation::Hash,
        Operation::Show,
        Operation::Pack,
        Operation::Unpack,
    ];

    /// Returns the name of the operation.
    pub(crate) fn name(self) -> &'static str {
        match self {
            Operation::Copy => "copy",
            Operation::First => "first",
            Operation::Framer => "framer",
            Operation::Survey => "survey",
            Operation::Room => "room",
            Operation::Index => "index",
            Operation::Walk => "walk",
            Operation::Canonical => "canonical",
            Operation::IsCanonical => "is_canonical",
            Operation::NotCanonical => "not_canonical",
            Operation::Hash => "hash",
            Operation::Show => "show",
            Operation::Pack => "pack",
            Operation::Unpack => "unpack",
            Operation::Check => "check",
            Operation::Same => "same",
            Operation::NotSame => "not_same",
        }
    }

    /// Returns the operation called `name`.
    pub(crate) fn named(name: &str) -> Option<Operation> {
        for operation in [Operation::Check, Operation::Same, Operation::NotSame] {
            if name == operation.name() {
                return Some(operation);
            }
        }
        Operation::ALL
            .iter()
            .copied()
            .find(|operation| operation.name() == name)
    }
}

/// The input of an operation.
#[derive(Drop)]
pub(crate) struct Input {
    /// The framed message, its canonical bytes, its packed bytes, or a stream. Empty if the input is a tree.
    bytes: Vec<u8>,
    /// The tree of the message.
    tree: Option<Tree>,
    /// A second message if the operation takes two, and otherwise empty.
    other: Vec<u8>,
    /// The number of bytes by which the cost is divided. It is the size of the canonical bytes if the input begins with
    /// them, and otherwise the size of the framed message or of the stream.
    pub size: usize,
}

/// Returns an input of `bytes`, whose cost is divided by `size`, or by the number of `bytes` if `size` is `None`.
fn of_bytes(alloc: Global, bytes: Result<Vec<u8>>, size: Option<usize>) -> Result<Input> {
    let bytes = bytes?;
    let size = size.unwrap_or(bytes.len());
    Ok(Input {
        bytes,
        tree: None,
        other: Vec::new(alloc),
        size,
    })
}

/// Returns an input that is a tree. The cost of the operation is divided by `size`, the size of the framed message.
fn of_tree(alloc: Global, tree: Result<Tree>, size: usize) -> Result<Input> {
    let tree = tree?;
    Ok(Input {
        bytes: Vec::new(alloc),
        tree: Some(tree),
        other: Vec::new(alloc),
        size,
    })
}

/// Returns an input of the messages `bytes` and `other`, whose cost is divided by the size of `bytes`.
fn of_two(other: Result<Vec<u8>>, bytes: Vec<u8>) -> Result<Input> {
    let other = other?;
    let size = bytes.len();
    Ok(Input {
        bytes,
        tree: None,
        other,
        size,
    })
}

/// Returns the number of bytes that an operation returned.
fn len_of(bytes: Result<Vec<u8>>) -> Result<usize> {
    Ok(bytes?.len())
}

/// Returns the number that an operation returned.
fn number_of(number: Result<u32>) -> Result<usize> {
    Ok(number? as usize)
}

impl Input {
    /// Returns the input of `operation`, for a framed message or a stream.
    pub(crate) fn new(alloc: Global, operation: Operation, framed: Vec<u8>) -> Result<Input> {
        let size = framed.len();
        match operation {
            Operation::IsCanonical => of_bytes(alloc, canonical(alloc, &framed), None),
            Operation::NotCanonical => of_bytes(alloc, longer(alloc, &framed), None),
            Operation::Unpack => of_bytes(alloc, packed(alloc, &framed), Some(size)),
            Operation::Show => of_tree(alloc, tree_of(alloc, &framed), size),
            Operation::NotSame => of_two(changed(alloc, &framed), framed),
            _ => of_bytes(alloc, Ok(framed), Some(size)),
        }
    }

    /// Returns the length of the text of the tree.
    fn text(&self, alloc: Global) -> Result<usize> {
        match &self.tree {
            Some(tree) => match show(alloc, tree) {
                Ok(text) => Ok(text.len()),
                Err(_) => Err(anyhow!("not shown")),
            },
            None => Err(anyhow!("no tree")),
        }
    }

    /// Does `operation` once. Returns a number that depends on the result.
    #[inline(never)]
    pub(crate) fn perform(&self, alloc: Global, operation: Operation) -> Result<usize> {
        let bytes = self.bytes.as_slice();
        match operation {
            Operation::Copy => len_of(copied(alloc, bytes)),
            Operation::First => number_of(segments_of(alloc, bytes)),
            Operation::Framer => number_of(received(alloc, bytes)),
            Operation::Survey => number_of(paid(alloc, bytes)),
            Operation::Room => roomed(alloc, bytes),
            Operation::Index => number_of(indexed(alloc, bytes)),
            Operation::Walk => number_of(walked(alloc, bytes)),
            Operation::Canonical => len_of(canonical(alloc, bytes)),
            Operation::IsCanonical => number_of(told(alloc, bytes)),
            Operation::NotCanonical => number_of(told(alloc, bytes)),
            Operation::Hash => number_of(first_byte(alloc, bytes)),
            Operation::Show => self.text(alloc),
            Operation::Pack => len_of(packed(alloc, bytes)),
            Operation::Unpack => len_of(unpacked(alloc, bytes)),
            Operation::Check => len_of(checked(alloc, bytes)),
            Operation::Same => number_of(compared(alloc, bytes, bytes)),
            Operation::NotSame => number_of(compared(alloc, bytes, self.other.as_slice())),
        }
    }
}
