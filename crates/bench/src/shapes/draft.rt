//! `Draft`: a message that is being written. Words are appended, and a pointer is written once its object has a place.

ghost use Rattle.std.specs.Prelude.{◌<◌};

use crate::shapes::random::{Content, Random};
use crate::shapes::slot::Slot;
use std::alloc::{AllocError, Global};

/// The pointer to an empty struct, which is not null.
const EMPTY: u64 = 0xffff_fffc;

/// The route from a pointer to its object.
enum Route {
    /// An offset in the pointer.
    Near,
    /// A landing pad of one word.
    Far,
    /// A landing pad of two words.
    DoubleFar,
}

/// The segments of a message.
#[derive(Clone, Copy)]
pub(crate) enum Segments {
    /// One segment.
    One,
    /// Segments of about this number of words, with near, far and double-far pointers.
    Scattered(usize),
    /// Segments of about this number of words, filled one after the other as builders fill them. A pointer is near,
    /// unless its object is in another segment.
    Filled(usize),
}

/// A message that is being written. Its objects are in the order in which they are made.
#[derive(Drop)]
pub(crate) struct Draft {
    words: Vec<u64>,
    sizes: Vec<u32>,
    start: usize,
    segments: Segments,
    random: Random,
}

/// Returns `number`, or the greatest `u32` if it does not fit.
fn narrow(number: usize) -> u32 {
    u32::try_from(number).unwrap_or(u32::MAX)
}

impl Draft {
    /// Returns a draft in `segments` that has only the root pointer.
    pub(crate) fn new(alloc: Global, segments: Segments) -> Result<Draft, AllocError> {
        let mut words = Vec::new(alloc);
        words.push(0)?;
        Ok(Draft {
            words,
            sizes: Vec::new(alloc),
            start: 0,
            segments,
            random: Random::new(),
        })
    }

    /// Returns a random number below `bound`.
    pub(crate) fn below(&mut self, bound: u32) -> u32
        requires { 0 < bound }
        ensures { result < bound }
    {
        self.random.below(bound)
    }

    /// Returns the place of the next word.
    fn here(&self) -> Slot {
        Slot {
            segment: self.sizes.len(),
            at: self.words.len(),
        }
    }

    /// Returns the number of words of the last segment.
    fn len(&self) -> usize {
        self.words.len().saturating_sub(self.start)
    }

    /// Ends the last segment.
    fn cut(&mut self) -> Result<(), AllocError> {
        let size = narrow(self.len());
        self.sizes.push(size)?;
        self.start = self.words.len();
        Ok(())
    }

    /// Writes `pointer` to `slot`.
    fn point(&mut self, slot: Slot, pointer: u64) {
        if let Some(word) = self.words.get_mut(slot.at) {
            *word = pointer;
        }
    }

    /// Returns the far pointer to the next word.
    fn far(&self) -> u64 {
        2 | (self.len() as u64) << 3 | (self.sizes.len() as u64) << 32
    }

    /// Chooses the route from the pointer in `slot` to the next object. Ends the last segment first if it is full.
    fn route(&mut self, slot: Slot) -> Result<Route, AllocError> {
        let (most, scattered) = match self.segments {
            Segments::One => return Ok(Route::Near),
            Segments::Scattered(most) => (most, true),
            Segments::Filled(most) => (most, false),
        };
        if self.len() >= most {
            self.cut()?;
        }
        if scattered && self.below(16) == 0 {
            return Ok(Route::DoubleFar);
        }
        if slot.segment != self.sizes.len() || scattered && self.below(8) == 0 {
            return Ok(Route::Far);
        }
        Ok(Route::Near)
    }

    /// Tests whether the last segment is filled to seven eighths of its greatest size.
    fn is_nearly_full(&self) -> bool {
        match self.segments {
            Segments::One => false,
            Segments::Scattered(most) | Segments::Filled(most) => { self.len() >= most - most / 8 }
        }
    }

    /// Appends a landing pad of two words for the next object, and points `slot` to the pad. The second word of the pad
    /// is `pointer`. Then ends the last segment if it is nearly full.
    fn place_double_far(&mut self, slot: Slot, pointer: u64) -> Result<(), AllocError> {
        let far = self.far();
        self.point(slot, far | 4);
        let pad = self.here();
        self.words.push(0)?;
        self.words.push(pointer)?;
        if self.is_nearly_full() {
            self.cut()?;
        }
        let far = self.far();
        self.point(pad, far);
        Ok(())
    }

    /// Points `slot` to the next object by `pointer`, which still lacks its offset.
    fn place(&mut self, slot: Slot, pointer: u64) -> Result<(), AllocError> {
        match self.route(slot)? {
            Route::Near => {
                let offset = self.words.len().saturating_sub(slot.at).saturating_sub(1) as u64;
                let near = if pointer == 0 {
                    EMPTY
                } else {
                    pointer | offset << 2
                };
                self.point(slot, near);
            }
            Route::Far => {
                let far = self.far();
                self.point(slot, far);
                self.words.push(if pointer == 0 { EMPTY } else { pointer })?;
            }
            Route::DoubleFar => self.place_double_far(slot, pointer)?,
        }
        Ok(())
    }

    /// Appends `words` words of `content`.
    pub(crate) fn fill(&mut self, content: Content, words: u32) -> Result<(), AllocError> {
        for _ in 0..words {
            let word = self.random.word(content);
            self.words.push(word)?;
        }
        Ok(())
    }

    /// Appends a struct of `words` words and `slots` null slots, and points `slot` to it. Returns its first slot.
    pub(crate) fn node(
        &mut self,
        slot: Slot,
        content: Content,
        words: u32,
        slots: u32,
    ) -> Result<Slot, AllocError> {
        self.place(slot, u64::from(words) << 32 | u64::from(slots) << 48)?;
        self.fill(content, words)?;
        let first = self.here();
        self.fill(Content::Zeros, slots)?;
        Ok(first)
    }

    /// Appends a list of `count` bytes, and points `slot` to it.
    pub(crate) fn bytes(
        &mut self,
        slot: Slot,
        content: Content,
        count: u32,
    ) -> Result<(), AllocError> {
        self.place(slot, 1 | 2 << 32 | u64::from(count) << 35)?;
        self.fill(content, count / 8)?;
        let rest = count % 8;
        if rest > 0 {
            let word = self.random.word(content) & u64::MAX >> (64 - 8 * rest);
            self.words.push(word)?;
        }
        Ok(())
    }

    /// Appends a list of `pairs` pairs of 32-bit numbers, and points `slot` to it.
    pub(crate) fn pairs(
        &mut self,
        slot: Slot,
        content: Content,
        pairs: u32,
    ) -> Result<(), AllocError> {
        self.place(slot, 1 | 4 << 32 | u64::from(pairs) << 36)?;
        self.fill(content, pairs)
    }

    /// Appends a list of `count` 64-bit numbers, and points `slot` to it.
    pub(crate) fn numbers(
        &mut self,
        slot: Slot,
        content: Content,
        count: u32,
    ) -> Result<(), AllocError> {
        self.place(slot, 1 | 5 << 32 | u64::from(count) << 35)?;
        self.fill(content, count)
    }

    /// Appends a list of `count` null pointers, and points `slot` to it. Returns the place of the first pointer.
    pub(crate) fn pointers(&mut self, slot: Slot, count: u32) -> Result<Slot, AllocError> {
        self.place(slot, 1 | 6 << 32 | u64::from(count) << 35)?;
        let first = self.here();
        self.fill(Content::Zeros, count)?;
        Ok(first)
    }

    /// Appends a list of `count` structs of `words` words and `slots` null slots, and points `slot` to it. Returns the
    /// place of its first row.
    pub(crate) fn rows(
        &mut self,
        slot: Slot,
        content: Content,
        count: u32,
        words: u32,
        slots: u32,
    ) -> Result<Slot, AllocError> {
        let size = u64::from(words).saturating_add(u64::from(slots));
        let all = u64::from(count).saturating_mul(size);
        self.place(slot, 1 | 7 << 32 | all << 35)?;
        let sizes = u64::from(words) << 32 | u64::from(slots) << 48;
        self.words.push(u64::from(count) << 2 | sizes)?;
        let first = self.here();
        for _ in 0..count {
            self.fill(content, words)?;
            self.fill(Content::Zeros, slots)?;
        }
        Ok(first)
    }

    /// Appends a root struct with a list of pointers, one for every `words` words in `bytes` bytes, and at least one.
    /// Returns the slot of the first pointer, and the number of pointers.
    pub(crate) fn groups(&mut self, bytes: u32, words: u32) -> Result<(Slot, u32), AllocError>
        requires { 0 < words }
    {
        let root = self.node(Slot::ROOT, Content::Numbers, 1, 1)?;
        let count = (bytes / 8 / words).max(1);
        let first = self.pointers(root, count)?;
        Ok((first, count))
    }

    /// Ends the last segment, and frames the message.
    fn framed(&mut self, alloc: Global) -> Result<Vec<u8>, AllocError> {
        self.cut()?;
        let mut bytes = Vec::new(alloc);
        let last = narrow(self.sizes.len().saturating_sub(1));
        bytes.extend_from_slice(&last.to_le_bytes())?;
        for size in &self.sizes {
            bytes.extend_from_slice(&size.to_le_bytes())?;
        }
        if self.sizes.len() % 2 == 0 {
            bytes.extend_from_slice(&[0; 4])?;
        }
        for word in &self.words {
            bytes.extend_from_slice(&word.to_le_bytes())?;
        }
        Ok(bytes)
    }

    /// Returns the framed message.
    pub(crate) fn into_frame(mut self, alloc: Global) -> Result<Vec<u8>, AllocError> {
        let framed = self.framed(alloc);
        // One call of `drop` is cheaper for the prover than fields that are dropped one by one.
        drop(self);
        framed
    }
}
