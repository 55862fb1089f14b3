//! The length of the segment table of a message in an input.

ghost use Rattle.std.specs.Prelude.{◌≡◌, length};
ghost use Rattle.capn_serve.specs.Table as spec;

use capn_canon::Form;
use capn_words::Space;

/// Returns the number of words of the segment table of `message`. `form` is the form of the input. In a bare input a
/// message has no table, and the number is 0.
pub fn table_words<S: Space>(form: Form, message: &S) -> u32
    ensures { result ≡ spec.table_words form (S.message message.now) }
{
    match form {
        Form::Bare => 0,
        Form::Stream | Form::Packed => message.segments() / 2 + 1,
    }
}
