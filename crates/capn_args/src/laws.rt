//! Laws of command lines, as empty functions.

ghost use Rattle.capn_args.specs.Meaning.{MeansOne, MeansOneInvocation};

/// States that a subcommand with the values of its options means at most one invocation.
pub fn meaning()
    ensures { MeansOneInvocation }
{}

/// States that a subcommand with the values of its options means at most one command over messages or bytes.
pub fn command()
    ensures { MeansOne }
{}
