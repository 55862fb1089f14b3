//! The text of a value in a style, and the text for no value.

ghost use Rattle.std.specs.Prelude.{◌*◌, ◌<◌, ◌^◌, None, IfErr, OnOk};
ghost use Rattle.capn_words.specs.Message.{IsMessage};
ghost use Rattle.capn_target.specs.Shapes.{IsInMessage};
ghost use Rattle.capn_show.specs.Outgoing.{Adds, BreaksOff, outgoing};
ghost use Rattle.capn_show.specs.Style.{part_in};
ghost use Rattle.capn_show.specs.ReadyPlaces.{IsFound, IsThereShown, json_style, lines_style};

use crate::emitter::Lines;
use crate::fault::Broken;
use crate::json::Json;
use crate::lines::{end_line, plain_line};
use crate::slots::show_found;
use crate::style::Style;
use capn_walk::Target;
use capn_words::{Space, Watched};
use std::alloc::Allocator;
use std::io::Write;

/// Appends the text of the value with the target `found` to `text`, in this `style`.
pub fn show_there<S: Space, W: Write, A: Allocator>(
    text: &mut Vec<u8, A>,
    writer: &mut Watched<W>,
    space: &S,
    style: Style,
    found: Target,
    depth: u32,
) -> Result<(), Broken>
    requires message { IsMessage (S.message space.now) }
    requires inside { IsInMessage (S.message space.now) found }
    requires ready { IsFound (S.message space.now) found depth }
    requires room { 2 * depth < 2 ^ 32 }
    ensures shown { OnOk result (IsThereShown (S.message space.now) style found (Adds
        (outgoing W.contents writer.old text.old.items) (outgoing W.contents writer.new text.new.items))) }
    ensures cut { IfErr result (λ e. IsThereShown (S.message space.now) style found (BreaksOff
        (outgoing W.contents writer.old text.old.items) (outgoing W.contents writer.new text.new.items) e)) }
{
    match style {
        Style::Lines => show_lines::<_, _, _, false>(text, writer, space, found, depth),
        Style::Quoted => show_lines::<_, _, _, true>(text, writer, space, found, depth),
        Style::Json => show_json::<_, _, _, false>(text, writer, space, found, depth),
        Style::JsonText => show_json::<_, _, _, true>(text, writer, space, found, depth),
    }
}

/// Appends the lines of the value with the target `found` to `text`. A list of bytes that is a text is written between
/// quotes if `QUOTED` is set.
fn show_lines<S: Space, W: Write, A: Allocator, const QUOTED: bool>(
    text: &mut Vec<u8, A>,
    writer: &mut Watched<W>,
    space: &S,
    found: Target,
    depth: u32,
) -> Result<(), Broken>
    requires message { IsMessage (S.message space.now) }
    requires inside { IsInMessage (S.message space.now) found }
    requires ready { IsFound (S.message space.now) found depth }
    requires room { 2 * depth < 2 ^ 32 }
    ensures shown { OnOk result (IsThereShown (S.message space.now) (lines_style QUOTED) found (Adds
        (outgoing W.contents writer.old text.old.items) (outgoing W.contents writer.new text.new.items))) }
    ensures cut { IfErr result (λ e. IsThereShown (S.message space.now) (lines_style QUOTED) found (BreaksOff
        (outgoing W.contents writer.old text.old.items) (outgoing W.contents writer.new text.new.items) e)) }
{
    show_found(text, writer, &mut Lines::<QUOTED>, space, found, 0, depth)
}

/// Appends the line of JSON of the value with the target `found` to `text`. A list of bytes that is a text is written
/// as a string if `QUOTED` is set.
fn show_json<S: Space, W: Write, A: Allocator, const QUOTED: bool>(
    text: &mut Vec<u8, A>,
    writer: &mut Watched<W>,
    space: &S,
    found: Target,
    depth: u32,
) -> Result<(), Broken>
    requires message { IsMessage (S.message space.now) }
    requires inside { IsInMessage (S.message space.now) found }
    requires ready { IsFound (S.message space.now) found depth }
    requires room { 2 * depth < 2 ^ 32 }
    ensures shown { OnOk result (IsThereShown (S.message space.now) (json_style QUOTED) found (Adds
        (outgoing W.contents writer.old text.old.items) (outgoing W.contents writer.new text.new.items))) }
    ensures cut { IfErr result (λ e. IsThereShown (S.message space.now) (json_style QUOTED) found (BreaksOff
        (outgoing W.contents writer.old text.old.items) (outgoing W.contents writer.new text.new.items) e)) }
{
    show_found(text, writer, &mut Json::<QUOTED>, space, found, 0, depth)?;
    end_line(text, writer)
}

/// Appends the text for a path without a value to `text`: the line `none`, or an empty line in a JSON `style`.
pub fn show_nothing<W: Write, A: Allocator>(
    text: &mut Vec<u8, A>,
    writer: &mut Watched<W>,
    style: Style,
) -> Result<(), Broken>
    ensures shown { OnOk result (Adds (outgoing W.contents writer.old text.old.items)
        (outgoing W.contents writer.new text.new.items) (part_in style None)) }
    ensures cut { IfErr result (λ e. BreaksOff (outgoing W.contents writer.old text.old.items)
        (outgoing W.contents writer.new text.new.items) e (part_in style None)) }
{
    match style {
        Style::Lines | Style::Quoted => plain_line(text, writer, 0, "none"),
        Style::Json | Style::JsonText => end_line(text, writer),
    }
}
