//! The type `Usage`, the outcome of a command line that means no invocation.

ghost use Rattle.std.specs.Prelude.{◌≡◌, ◌↔◌, IfOk, IsTrue, string_bytes};
ghost use Rattle.clap.specs.Words.{kind_of};
ghost use Rattle.capn_args.specs.ExitStatus.{usage_status_of};

use crate::help::TITLE;
use clap::error::ErrorKind;
use std::alloc::{AllocError, Allocator};

/// The reason why a command line means no invocation: a request for help or for the version, a mistake, or a refused
/// allocation.
#[derive(Drop)]
pub struct Usage {
    /// The error of the parser of the command line.
    pub error: clap::Error,
}

impl Usage {
    ghost use Rattle.capn_args.specs.Usage.{IsHelp, NeedsMemory, WishesHelp, WishesVersion, error_of};

    /// Returns the exit status: 3 if an allocation was refused, 0 for a request for help, and 2 for any other reason.
    /// For a request for the version the program does not use this status, but writes the version and ends with 0.
    pub fn status(&self) -> u8
        ensures { result ≡ usage_status_of (kind_of (error_of self.now)) }
    {
        match self.error.kind() {
            ErrorKind::OutOfMemory => 3,
            ErrorKind::DisplayHelp => 0,
            _ => 2,
        }
    }

    /// Tests whether an allocation was refused, which says nothing about the words.
    pub fn is_memory(&self) -> bool
        ensures { IsTrue result ↔ NeedsMemory self.now }
    {
        matches!(self.error.kind(), ErrorKind::OutOfMemory)
    }

    /// Tests whether the words ask for help.
    pub fn is_help(&self) -> bool
        ensures { IsTrue result ↔ WishesHelp self.now }
    {
        matches!(self.error.kind(), ErrorKind::DisplayHelp)
    }

    /// Tests whether the words ask for the version.
    pub fn is_version(&self) -> bool
        ensures { IsTrue result ↔ WishesVersion self.now }
    {
        matches!(self.error.kind(), ErrorKind::DisplayVersion)
    }

    /// Returns the text for the user: the page of help below its title, or the message about a mistake.
    pub fn text<A: Allocator + Copy>(&self, alloc: A) -> Result<String<A>, AllocError>
        ensures { WishesHelp self.now → IfOk result (λ text. IsHelp (string_bytes text)) }
    {
        let said = format!(in alloc; "{}", &self.error)?;
        if !self.is_help() {
            return Ok(said);
        }
        let mut text = String::from_str(alloc, TITLE)?;
        text.push_str(said.as_str())?;
        Ok(text)
    }
}

impl From<clap::Error> for Usage {
    ghost use Rattle.std.specs.Prelude.{◌≡◌};
    ghost use Rattle.capn_args.specs.Usage.{error_of};

    ghost from_gives = { λ error usage. error_of usage ≡ error };

    fn from(error: clap::Error) -> Usage {
        Usage { error }
    }
}

impl From<AllocError> for Usage {
    ghost use Rattle.capn_args.specs.Usage.{NeedsMemory};

    ghost from_gives = { λ _ usage. NeedsMemory usage };

    fn from(error: AllocError) -> Usage {
        Usage {
            error: error.into(),
        }
    }
}
