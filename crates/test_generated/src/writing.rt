//! `message`: accepted messages of all kinds, made from a seed.

use crate::random::Random;
use crate::segments::{At, Segments, capability, far, list, node, offset_to, tag};
use std::alloc::{AllocError, Global};

// An object that has been written: where it starts, and its pointer with the offset 0.
#[derive(Clone, Copy)]
struct Object {
    at: At,
    pointer: u64,
}

// A message that is being written, and its slots that have no pointer yet. `value` decides what the message says, and
// `layout` decides where its objects lie. So the message's value does not depend on the number of segments.
#[derive(Drop)]
struct Writing {
    value: Random,
    layout: Random,
    segments: Segments,
    slots: Vec<At>,
}

impl Writing {
    // Returns the end of a random segment.
    fn place(&mut self) -> At {
        let segment = self.layout.below(self.segments.count());
        At {
            segment,
            word: self.segments.len(segment),
        }
    }

    // Appends `count` words of all kinds to `segment`. Zeros occur at the ends of structs, and junk in padding.
    fn push_data(&mut self, segment: u64, count: u64) -> Result<(), AllocError> {
        for _ in 0..count {
            let word = match self.value.below(4) {
                0 | 1 => 0,
                2 => self.value.below(16),
                _ => self.value.word(),
            };
            self.segments.push(segment, word)?;
        }
        Ok(())
    }

    // Appends `count` slots to `segment`, which are null until they are filled.
    fn push_slots(&mut self, segment: u64, count: u64) -> Result<(), AllocError> {
        for _ in 0..count {
            let word = self.segments.len(segment);
            self.slots.push(At { segment, word })?;
            self.segments.push(segment, 0)?;
        }
        Ok(())
    }

    fn push_struct(&mut self) -> Result<Object, AllocError> {
        let at = self.place();
        let words = self.value.below(4);
        let slots = self.value.below(4);
        self.push_data(at.segment, words)?;
        self.push_slots(at.segment, slots)?;
        Ok(Object {
            at,
            pointer: node(words, slots),
        })
    }

    // Appends a list of elements of 0, 1, 8, 16, 32 or 64 bits.
    fn push_numbers(&mut self) -> Result<Object, AllocError> {
        let at = self.place();
        let code = self.value.below(6);
        let count = self.value.below(20);
        let bits = match code {
            0 => 0,
            1 => 1,
            2 => 8,
            3 => 16,
            4 => 32,
            _ => 64,
        };
        self.push_data(at.segment, (count * bits).div_ceil(64))?;
        Ok(Object {
            at,
            pointer: list(code, count),
        })
    }

    fn push_links(&mut self) -> Result<Object, AllocError> {
        let at = self.place();
        let count = self.value.below(4);
        self.push_slots(at.segment, count)?;
        Ok(Object {
            at,
            pointer: list(6, count),
        })
    }

    // Appends a composite list, with up to two unused words after its rows.
    fn push_rows(&mut self) -> Result<Object, AllocError> {
        let at = self.place();
        let count = self.value.below(4);
        let words = self.value.below(3);
        let slots = self.value.below(3);
        let slack = self.value.below(3);
        self.segments.push(at.segment, tag(count, words, slots))?;
        for _ in 0..count {
            self.push_data(at.segment, words)?;
            self.push_slots(at.segment, slots)?;
        }
        self.push_data(at.segment, slack)?;
        Ok(Object {
            at,
            pointer: list(7, count * (words + slots) + slack),
        })
    }

    // Points `slot` to `object`, directly or by a landing pad, which has one or two words. A direct pointer to an empty
    // struct gets the offset -1, because with the offset 0 it would be null.
    fn point(&mut self, slot: At, object: Object) -> Result<(), AllocError> {
        let to = object.at;
        if slot.segment == to.segment && self.layout.below(4) != 0 {
            let start = if object.pointer == 0 {
                slot.word
            } else {
                to.word
            };
            let pointer = object.pointer | offset_to(start, slot.word);
            self.segments.set(slot, pointer);
            return Ok(());
        }
        let is_double = self.layout.below(2) == 0;
        let mut pad = self.place();
        if is_double {
            self.segments.push(pad.segment, far(to, false))?;
            self.segments.push(pad.segment, object.pointer)?;
        } else {
            pad = At {
                segment: to.segment,
                word: self.segments.len(to.segment),
            };
            let pointer = object.pointer | offset_to(to.word, pad.word);
            self.segments.push(pad.segment, pointer)?;
        }
        self.segments.set(slot, far(pad, is_double));
        Ok(())
    }

    // Appends the object at the root: mostly a struct, and otherwise a list of any kind.
    fn push_root(&mut self) -> Result<Object, AllocError> {
        match self.value.below(12) {
            0 => self.push_numbers(),
            1 => self.push_links(),
            2 => self.push_rows(),
            _ => self.push_struct(),
        }
    }

    // Fills `slot` with a pointer, or leaves it null.
    fn fill(&mut self, slot: At) -> Result<(), AllocError> {
        let object = match self.value.below(40) {
            0..=4 => return Ok(()),
            5 => {
                let index = self.value.below(5);
                self.segments.set(slot, capability(index));
                return Ok(());
            }
            6..=17 => self.push_struct()?,
            18..=27 => self.push_numbers()?,
            28..=32 => self.push_links()?,
            _ => self.push_rows()?,
        };
        self.point(slot, object)
    }
}

/// Returns the stream of the message of `seed` in `count` segments. The value of the message is the same for every
/// `count`. Below the struct or the list at its root there are fewer than 40 objects.
pub(crate) fn message(alloc: Global, seed: u64, count: u64) -> Result<Vec<u8>, AllocError> {
    let mut writing = Writing {
        value: Random::new(seed),
        layout: Random::new(seed.wrapping_add(count)),
        segments: Segments::new(alloc, count)?,
        slots: Vec::new(alloc),
    };
    let root = At {
        segment: 0,
        word: 0,
    };
    writing.segments.push(0, 0)?;
    let object = writing.push_root()?;
    writing.point(root, object)?;
    for _ in 0..writing.value.below(40) {
        let Some(slot) = writing.slots.pop() else {
            break;
        };
        writing.fill(slot)?;
    }
    writing.segments.stream(alloc)
}
