//! The text of a message in any form, made in memory.

ghost use Rattle.std.specs.Prelude.{◌≡◌, ◌++◌, IfSome, IfOk, IfErr, IsErrOf, MatchResult};
ghost use Rattle.capn_walk.specs.Accepted.{IsBounded};
ghost use Rattle.capn_canon.specs.Refusal.{IsPaidWithin, IsUnacceptedIn};
ghost use Rattle.capn_canon.specs.SurveyedBytes.{Surveys};
ghost use Rattle.capn_canon.specs.declared.refusal.Refusal.TheVariants as refusals;
ghost use Rattle.capn_c.specs.Shown.{MayNeedText, ShowsIn, ShowsMessage};
ghost use Rattle.capn_c.specs.inner.Told.{IsTextTold};

use capn_canon::{Form, MessageTask, Refusal, run_task, survey};
use capn_show::{Style, show_part};
use capn_walk::{Limits, Surveyed};
use capn_words::{Space, Watched};
use std::alloc::Global;

/// Returns the bytes of `first` followed by those of `second`, or `None` if memory was refused.
fn joined(mut first: Vec<u8>, second: Vec<u8>) -> Option<Vec<u8>>
    ensures { IfSome result (λ all. all.items ≡ first.items ++ second.items) }
{
    if first.is_empty() {
        return Some(second);
    }
    match first.extend_from_slice(second.as_slice()) {
        Ok(()) => Some(first),
        Err(_) => None,
    }
}

/// Returns the text of the message `space` in `style`, or `None` if `space` is not accepted or memory was refused.
fn text_of<S: Space>(alloc: Global, space: &S, limits: Limits, style: Style) -> Option<Vec<u8>>
    ensures { IfSome result (λ text. ShowsMessage (S.message space.now) limits style text.items) }
{
    let mut text = Vec::new(alloc);
    let mut writer = Watched::new(Vec::new(alloc));
    match show_part(alloc, &mut text, &mut writer, space, limits, style, &[]) {
        Ok(()) => match text.extend_from_slice(style.end()) {
            Ok(()) => joined(writer.into_inner(), text),
            Err(_) => None,
        },
        Err(_) => None,
    }
}

/// The text of a message, and its survey.
#[derive(Drop)]
pub struct ShownText {
    /// The text.
    pub text: Vec<u8>,
    /// The survey of the message.
    pub survey: Surveyed,
}

/// The task of `text_in`: makes the text of the message that was read, in a style.
#[derive(Clone, Copy)]
struct Show {
    style: Style,
}

impl MessageTask<Global> for Show {
    type Answer = ShownText;

    ghost answers = { λ task m limits r _. IsTextTold m limits task.style r };

    fn run<S: Space>(
        &mut self,
        alloc: Global,
        message: &S,
        limits: Limits,
    ) -> Result<ShownText, Refusal> {
        let survey = survey(alloc, message, limits)?;
        match text_of(alloc, message, limits, self.style) {
            Some(text) => Ok(ShownText { text, survey }),
            None => Err(Refusal::Memory),
        }
    }
}

/// Returns the text in `style` of the message that `bytes` encode in `form`, and the survey within `limits`. Bytes that
/// are no message, and a message that is not accepted, are refused. The bytes are unpacked or unframed at most once.
pub fn text_in(
    alloc: Global,
    form: Form,
    bytes: &[u8],
    limits: Limits,
    style: Style,
) -> Result<ShownText, Refusal>
    ensures found { IfOk result (λ x. ShowsIn form bytes.now limits style x.text.items) }
    ensures surveyed { IfOk result (λ x. Surveys form bytes.now limits x.survey) }
    ensures refused { IfErr result (λ e. IsUnacceptedIn form bytes.now limits e) }
    ensures memory { IsErrOf result refusals.Memory → MayNeedText form bytes.now limits }
    ensures bounded { MatchResult result (λ x. IsBounded limits.budget x.survey.paid x.survey.visits)
        (λ e. IsPaidWithin limits.budget e) }
{
    let mut task = Show { style };
    run_task(alloc, &mut task, form, bytes, limits)
}
