//! The faults that end a run of `cmp`, with their texts and exit status.

use capn_serve::{Ending, Line, RunFault};
use capn_words::Watched;
use std::io::Write;

/// The reason why a run of `cmp` does not end with a result.
#[derive(Clone, Copy, Debug, PartialEq, Eq)]
pub enum CmpFault {
    /// The loop over the messages ended with this fault.
    Run(RunFault),
    /// The input has fewer than two messages.
    TooFew,
}

impl Ending for CmpFault {
    ghost use Rattle.capn_cmp.specs.FaultText.{cmp_text, status_of};

    ghost text = { cmp_text };

    ghost exit = { status_of };

    fn say<E: Write>(&self, line: &mut Line, errors: &mut Watched<E>) {
        match self {
            CmpFault::Run(fault) => fault.say(line, errors),
            CmpFault::TooFew => line.put(b"fewer than two messages", errors),
        }
    }

    fn exit_status(&self) -> u8 {
        match self {
            CmpFault::Run(fault) => fault.exit_status(),
            CmpFault::TooFew => 1,
        }
    }
}
