//! Tests of the steps to a part of a message, and of the text of that part.

use crate::words::bytes_of;
use capn_quoted::is_text;
use capn_show::{
    Broken, Emitter, Part, Piece, ShowFault, fault_of, named, put_line_piece, show_found,
    show_quoted, step_down,
};
use capn_walk::laws::values;
use capn_walk::{Fault, Limits, Shape, Stopped, Target, survey};
use capn_words::{Bare, Place, Space, Watched, Width};
use std::alloc::{Allocator, Global};
use std::io::Write;
use std::test::Fail;

/// The emitter of lines without marks, with texts between quotes.
#[derive(Drop)]
struct Quoted;

impl Emitter for Quoted {
    ghost use Rattle.std.specs.Prelude.{[], ⊤, true};
    ghost use Rattle.capn_show.specs.Emitted.{plain_rule};

    ghost rule = { λ e. plain_rule true };

    ghost path = { λ e. [] };

    ghost is_of = { λ e m. ⊤ };

    fn is_text(&self, bytes: &[u8]) -> bool {
        is_text(bytes)
    }

    fn put_text<W: Write, A: Allocator>(
        &self,
        text: &mut Vec<u8, A>,
        writer: &mut Watched<W>,
        level: u32,
        bytes: &[u8],
    ) -> Result<(), Broken> {
        show_quoted(text, writer, bytes, level)
    }

    fn put_piece<W: Write, A: Allocator>(
        &self,
        text: &mut Vec<u8, A>,
        writer: &mut Watched<W>,
        level: u32,
        piece: Piece,
    ) -> Result<(), Broken> {
        put_line_piece(text, writer, level, piece)
    }

    fn byte_of<S: Space>(&self, _space: &S, _at: Place) -> u128 {
        0
    }

    fn put_mark<W: Write, A: Allocator>(
        &self,
        _text: &mut Vec<u8, A>,
        _writer: &mut Watched<W>,
        _number: u32,
        _byte: u128,
    ) -> Result<(), Broken> {
        Ok(())
    }

    fn path_length(&self) -> usize {
        0
    }

    fn step_below(&mut self, _number: u32) -> Result<(), Broken> {
        Ok(())
    }

    fn step_back(&mut self, _length: usize) {}
}

/// The target of the root of the message `space`, the part with this `number` below it, and the text of that part.
/// Nothing is looked for in a message that is refused.
fn below<S: Space>(
    alloc: Global,
    space: &S,
    limits: Limits,
    number: u64,
) -> Result<(Target, Option<Part>, Vec<u8>), ShowFault> {
    values();
    let _bounds = space.segments();
    survey(alloc, space, limits)?;
    let depth = limits.depth();
    let root = named(space, Place::ROOT);
    let mut text = Vec::new(alloc);
    match step_down(space, root, number) {
        Some(part) => {
            let mut writer = Watched::new(Vec::new(alloc));
            match show_found(
                &mut text,
                &mut writer,
                &mut Quoted,
                space,
                part.found,
                0,
                depth,
            ) {
                Ok(()) => Ok((root, Some(part), text)),
                Err(broken) => Err(fault_of(broken)),
            }
        }
        None => Ok((root, None, text)),
    }
}

/// A struct of a word and two slots: three bytes that are a text, and two rows of a word and a slot.
const STRUCT: [u64; 10] = [
    0x2_0001_0000_0000,
    5,
    0x1a_0000_0005,
    0x27_0000_0005,
    0x63_6261,
    0x1_0001_0000_0008,
    6,
    0,
    8,
    0x3_0000_0003,
];

/// The text of the rows.
const ROWS: &[u8] = b"rows 2
  struct 1 1
    word 0000000000000006
    null
  struct 1 1
    word 0000000000000008
    capability 3
";

/// Returns the content of `shape` from the word `start` on.
fn content(start: u32, shape: Shape) -> Target {
    Target::Content {
        segment: 0,
        start,
        shape,
        pads: 0,
    }
}

/// The rows of `STRUCT`.
const TWO_ROWS: Shape = Shape::Rows {
    count: 2,
    words: 1,
    slots: 1,
    span: 4,
};

/// Tests whether the root of the message of `words` has the target `root`, and the part with this `number` is at the
/// word of `want`, with its target and its text.
fn is_below(
    alloc: Global,
    words: &[u64],
    number: u64,
    root: Target,
    want: (u32, Target, &[u8]),
) -> Result<bool, Fail> {
    let bytes = bytes_of(alloc, words)?;
    let Ok(space) = Bare::new(bytes.as_slice()) else {
        return Ok(false);
    };
    let at = Place {
        segment: 0,
        word: want.0,
    };
    let part = Part { at, found: want.1 };
    match below(alloc, &space, Limits::usual(), number) {
        Ok((target, found, text)) => {
            let is_there = target == root && found == Some(part);
            Ok(is_there && text.as_slice() == want.2)
        }
        Err(_) => Ok(false),
    }
}

/// A number leads to a slot of a struct, an element of a list of pointers, or a row.
#[test]
fn each_kind_of_part(rt: HostRuntime) -> Result<(), Fail> {
    let alloc = rt.alloc();
    let node = content(1, Shape::Node { words: 1, slots: 2 });
    let bytes = Shape::Many {
        width: Width::W8,
        count: 3,
    };
    let text = (2, content(4, bytes), b"bytes 3 \"abc\"\n".as_slice());
    assert!(rt; is_below(alloc, &STRUCT, 0, node, text)?);
    let rows = (3, content(5, TWO_ROWS), ROWS);
    assert!(rt; is_below(alloc, &STRUCT, 1, node, rows)?);
    let row = content(4, Shape::Node { words: 1, slots: 1 });
    let last = b"struct 1 1\n  word 0000000000000008\n  capability 3\n".as_slice();
    let list = [0x27_0000_0001, 0x1_0001_0000_0008, 6, 0, 8, 0x3_0000_0003];
    assert!(rt; is_below(alloc, &list, 1, content(1, TWO_ROWS), (4, row, last))?);
    let pointers = Shape::Many {
        width: Width::Link,
        count: 2,
    };
    let links = [0x16_0000_0001, 0, 0x3_0000_0003];
    let nil = (1, Target::Nil, b"null\n".as_slice());
    assert!(rt; is_below(alloc, &links, 0, content(1, pointers), nil)?);
    let capability = (2, Target::Cap(3), b"capability 3\n".as_slice());
    assert!(rt; is_below(alloc, &links, 1, content(1, pointers), capability)?);
    Ok(())
}

/// Tests whether the message of `words` has no part with this `number`.
fn is_without(alloc: Global, words: &[u64], number: u64) -> Result<bool, Fail> {
    let bytes = bytes_of(alloc, words)?;
    let Ok(space) = Bare::new(bytes.as_slice()) else {
        return Ok(false);
    };
    match below(alloc, &space, Limits::usual(), number) {
        Ok((_, found, text)) => Ok(found.is_none() && text.is_empty()),
        Err(_) => Ok(false),
    }
}

/// Nothing is below a null root, or a list of numbers. A number may be too great, even above 2^32.
#[test]
fn no_such_part(rt: HostRuntime) -> Result<(), Fail> {
    let alloc = rt.alloc();
    assert!(rt; is_without(alloc, &[0], 0)?);
    assert!(rt; is_without(alloc, &[0x1a_0000_0001, 0x63_6261], 0)?);
    assert!(rt; is_without(alloc, &STRUCT, 2)?);
    assert!(rt; is_without(alloc, &STRUCT, 4_294_967_296)?);
    assert!(rt; is_without(alloc, &[0x16_0000_0001, 0, 0], 2)?);
    assert!(rt; is_without(alloc, &[0x17_0000_0001, 0x1_0000_0008, 6, 7], 2)?);
    Ok(())
}

/// A message that is refused has no parts.
#[test]
fn no_part_of_a_refused_message(rt: HostRuntime) -> Result<(), Fail> {
    let bytes = bytes_of(rt.alloc(), &STRUCT)?;
    let Ok(space) = Bare::new(bytes.as_slice()) else {
        return Err(Fail::new("no words"));
    };
    let limits = Limits::new(16, 3, 64).unwrap_or(Limits::usual());
    let stopped = Stopped {
        fault: Fault::OverBudget,
        place: Place::ROOT,
        paid: 0,
        visits: 1,
    };
    let told = below(rt.alloc(), &space, limits, 0);
    assert!(rt; matches!(told, Err(ShowFault::Stopped(stop)) if stop == stopped));
    Ok(())
}
