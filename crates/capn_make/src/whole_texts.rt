//! Parses the complete texts in the remaining bytes of an input, and makes the bytes of their messages.

ghost use Rattle.std.specs.Prelude.{◌≡◌, ◌≢◌, ℕ, List, [], ◌++◌, IfErr, IsErrOf};
ghost use Rattle.capn_canon.specs.declared.form.Form.TheVariants as forms;
ghost use Rattle.capn_make.specs.inner.RunParts.{EndsOne, GoesOn, HasMade, IsAfter, TellsCut, TellsEnd};

use crate::fault::MakeFault;
use crate::next_text::next_piece;
use capn_canon::Form;
use capn_text::Texts;
use std::alloc::Allocator;

/// Parses each text and appends its message to `made`, up to the end of the input or to the first text that is refused.
fn make_each<A: Allocator + Copy>(
    alloc: A,
    form: Form,
    texts: &mut Texts,
    made: &mut Vec<u8, A>,
    cut: &mut bool,
) -> Result<(), MakeFault>
    requires framed { form ≡ forms.Bare → ⊥ }
    ensures after { IsAfter texts.old texts.new }
    ensures made { (input : List ℕ) (written : List ℕ) → HasMade form input texts.old (written ++ made.old.items)
        → GoesOn form input texts.new (written ++ made.new.items) result }
    ensures cut { IfErr result (λ e. TellsCut form texts.new cut.new e) }
    ensures memory { IsErrOf result MakeFault.Memory → texts.old.rest ≢ [] }
{
    'texts: while let Some(piece) = next_piece(alloc, form, texts, cut)? {
        made.extend_from_slice(&piece)?;
    }
    Ok(())
}

/// Refuses the bytes that follow the only text, if there are any. The fault depends on their first line, and nothing
/// after that line is read.
fn end_of_one(texts: &Texts, cut: &mut bool) -> Result<(), MakeFault>
    ensures end { EndsOne texts.now result }
    ensures cut { IfErr result (λ e. TellsEnd texts.now cut.new e) }
{
    if texts.is_done() {
        return Ok(());
    }
    if texts.begins() {
        Err(MakeFault::Another(texts.line()))
    } else {
        *cut = texts.may_begin();
        Err(MakeFault::NotText(texts.line()))
    }
}

/// Parses the first text of an input, appends its message to `made`, and refuses any bytes that follow the text.
fn make_first<A: Allocator + Copy>(
    alloc: A,
    texts: &mut Texts,
    made: &mut Vec<u8, A>,
    cut: &mut bool,
) -> Result<(), MakeFault>
    requires first { texts.old.line ≡ 1 }
    ensures after { IsAfter texts.old texts.new }
    ensures made { (input : List ℕ) (written : List ℕ) → HasMade forms.Bare input texts.old (written ++ made.old.items)
        → GoesOn forms.Bare input texts.new (written ++ made.new.items) result }
    ensures cut { IfErr result (λ e. TellsCut forms.Bare texts.new cut.new e) }
    ensures memory { IsErrOf result MakeFault.Memory → texts.old.rest ≢ [] }
{
    let Some(piece) = next_piece(alloc, Form::Bare, texts, cut)? else {
        return Err(MakeFault::NoText);
    };
    made.extend_from_slice(&piece)?;
    end_of_one(texts, cut)
}

/// Parses the only text of an input and appends its message to `made`, unless the text was parsed before. Refuses any
/// bytes that follow the text.
fn make_one<A: Allocator + Copy>(
    alloc: A,
    texts: &mut Texts,
    made: &mut Vec<u8, A>,
    cut: &mut bool,
) -> Result<(), MakeFault>
    ensures after { IsAfter texts.old texts.new }
    ensures made { (input : List ℕ) (written : List ℕ) → HasMade forms.Bare input texts.old (written ++ made.old.items)
        → GoesOn forms.Bare input texts.new (written ++ made.new.items) result }
    ensures cut { IfErr result (λ e. TellsCut forms.Bare texts.new cut.new e) }
    ensures memory { IsErrOf result MakeFault.Memory → texts.old.rest ≢ [] }
{
    // A text has two lines or more, so at line 1 no text has been parsed.
    if texts.line() == 1 {
        return make_first(alloc, texts, made, cut);
    }
    end_of_one(texts, cut)
}

/// Parses the next texts, and appends their messages to `made`. In form `Bare` only one text is parsed. Returns the
/// result that the run has if no bytes follow.
pub(crate) fn make_texts<A: Allocator + Copy>(
    alloc: A,
    form: Form,
    texts: &mut Texts,
    made: &mut Vec<u8, A>,
    cut: &mut bool,
) -> Result<(), MakeFault>
    ensures after { IsAfter texts.old texts.new }
    ensures made { (input : List ℕ) (written : List ℕ) → HasMade form input texts.old (written ++ made.old.items)
        → GoesOn form input texts.new (written ++ made.new.items) result }
    ensures cut { IfErr result (λ e. TellsCut form texts.new cut.new e) }
    ensures memory { IsErrOf result MakeFault.Memory → texts.old.rest ≢ [] }
{
    match form {
        Form::Stream => make_each(alloc, Form::Stream, texts, made, cut),
        Form::Packed => make_each(alloc, Form::Packed, texts, made, cut),
        Form::Bare => make_one(alloc, texts, made, cut),
    }
}
