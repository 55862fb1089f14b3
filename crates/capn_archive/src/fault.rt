//! The faults that end a run over an archive, with their texts and exit status.

ghost use Rattle.std.specs.Prelude.{◌≡◌};
ghost use Rattle.capn_words.specs.Watched.{inner_of, has_failed};
ghost use Rattle.capn_serve.specs.Line.{Says, way};
ghost use Rattle.capn_archive.specs.FaultText.{text_of_uncanonical};
ghost use Rattle.capn_archive.specs.declared.fault.ArchiveFault.TheVariants as faults;

use capn_serve::{Ending, Line, Position, SkipFault, say_place};
use capn_words::Watched;
use std::io::Write;

/// The reason why a run over an archive does not end with `Ok`.
#[derive(Clone, Copy, Debug, PartialEq, Eq)]
pub enum ArchiveFault {
    /// The run ended with this fault, or all of the input was served, except for messages that were skipped.
    Ended(SkipFault),
    /// The message at this position is accepted but not canonical, and the run lets only canonical ones through.
    NotCanonical(Position),
}

impl From<SkipFault> for ArchiveFault {
    ghost from_gives = { λ fault e. e ≡ faults.Ended fault };

    fn from(fault: SkipFault) -> ArchiveFault {
        ArchiveFault::Ended(fault)
    }
}

fn say_uncanonical<E: Write>(at: &Position, line: &mut Line, errors: &mut Watched<E>)
    ensures { Says (text_of_uncanonical at.now)
        (way line.old (E.contents (inner_of errors.old)) (has_failed errors.old))
        (way line.new (E.contents (inner_of errors.new)) (has_failed errors.new)) }
{
    line.put(b"message ", errors);
    say_place(at, line, errors);
    line.put(b": not canonical", errors);
}

impl Ending for ArchiveFault {
    ghost use Rattle.capn_archive.specs.FaultText.{archive_text, status_of};

    ghost text = { archive_text };

    ghost exit = { status_of };

    fn say<E: Write>(&self, line: &mut Line, errors: &mut Watched<E>) {
        match self {
            ArchiveFault::Ended(fault) => fault.say(line, errors),
            ArchiveFault::NotCanonical(at) => say_uncanonical(at, line, errors),
        }
    }

    fn exit_status(&self) -> u8 {
        match self {
            ArchiveFault::Ended(fault) => fault.exit_status(),
            ArchiveFault::NotCanonical(_) => 1,
        }
    }
}
