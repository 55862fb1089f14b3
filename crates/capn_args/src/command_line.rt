//! The call `invocation_of`, which reads the words of a command line and returns the invocation that they mean.

ghost use Rattle.std.specs.Prelude.{◌≡◌, ◌≢◌, List, [], true, codes, map};
ghost use Rattle.std.specs.Prelude.{IfErr, IfOk, IfSome, IsSome, Some};
ghost use Rattle.clap.specs.Words.{Row, fault_of, found_of, kind_of, rows_of, subcommand_of, takes};
ghost use Rattle.capn_args.specs.Usage.{error_of, IsReason, GivesInvocation};
ghost use Rattle.capn_annotate.specs.declared.annotate_order.AnnotateOrder.{AnnotateOrder};
ghost use Rattle.capn_archive.specs.declared.filter_order.FilterOrder.{FilterOrder};
ghost use Rattle.capn_cmp.specs.declared.cmp_order.CmpOrder.{CmpOrder};
ghost use Rattle.capn_archive.specs.declared.task.ArchiveOrder.{ArchiveOrder};
ghost use Rattle.capn_archive.specs.declared.task.Task.{Task};
ghost use Rattle.capn_archive.specs.declared.uniq_order.UniqOrder.{UniqOrder};
ghost use Rattle.capn_args.specs.CommandLine.{program_line};
ghost use Rattle.capn_args.specs.Meaning.{AnnotateIs, AreOptions, CmpIs, FilterIs, MakeIs, MeansInvocation};
ghost use Rattle.capn_args.specs.Meaning.{TaskIs, UniqIs, task_name};
ghost use Rattle.capn_args.specs.declared.invocation.Make.{Make};
ghost use Rattle.capn_args.specs.declared.invocation.Invocation.{Invocation};

use crate::explain_options::explain_of;
use crate::input_options::{form_of, limits_of, unpacked_words_of};
use crate::invocation::{Flow, Invocation, Make};
use crate::mistakes::meaningless;
use crate::option_values::{flag_of, is_usual, stream_form_of};
use crate::pick_options::pick_invocation;
use crate::show_options::show_of;
use crate::subcommands::program_command;
use crate::usage::Usage;
use capn_annotate::AnnotateOrder;
use capn_archive::{ArchiveOrder, FilterOrder, Task, UniqOrder};
use capn_cmp::CmpOrder;
use capn_commands::{Command, MessageText};
use clap::ArgMatches;
use std::alloc::Global;
use std::convert::AsStr;

/// Returns the order to run `task` over an archive with the options in `matches`, or `None` if they mean no such order.
fn archive_of(task: Task, matches: &ArgMatches) -> Option<ArchiveOrder>
    ensures task { IfSome result (λ archive. archive.task ≡ task) }
    ensures options { IfSome result (AreOptions (rows_of (found_of matches.now))) }
    ensures served { (archive : ArchiveOrder) → AreOptions (rows_of (found_of matches.now)) archive → IsSome result }
{
    let form = form_of(matches)?;
    let limits = limits_of(matches)?;
    let keep_going = flag_of(matches, "keep-going")?;
    Some(ArchiveOrder {
        task,
        form,
        limits,
        keep_going,
    })
}

/// Returns the task of the command `name`, if that command runs over an archive and its task depends on no flag.
fn task_of(name: &str) -> Option<Task>
    requires not_list { name.now ≢ codes "list" }
    requires not_canonical { name.now ≢ codes "canonical" }
    ensures named { IfSome result (λ task. task_name task ≡ name.now) }
    ensures flags { IfSome result (λ task. (rows : List Row) → TaskIs rows task) }
    ensures served { (task : Task) → task_name task ≡ name.now → IsSome result }
{
    match name {
        "limits" => Some(Task::Limits),
        _ => None,
    }
}

/// Returns the invocation that the command `name` and the options in `matches` mean. Returns `None` unless they mean a
/// run over an archive, and the task of the run depends on no flag.
fn task_invocation<'a>(name: &str, matches: &ArgMatches<'a>) -> Option<Invocation<'a>>
    requires not_list { name.now ≢ codes "list" }
    requires not_canonical { name.now ≢ codes "canonical" }
    ensures means { IfSome result (MeansInvocation (Some (name.now, rows_of (found_of matches.now)))) }
    ensures served { (archive : ArchiveOrder) → task_name archive.task ≡ name.now
        → TaskIs (rows_of (found_of matches.now)) archive.task
        → AreOptions (rows_of (found_of matches.now)) archive
        → IsSome result }
{
    let task = task_of(name)?;
    let archive = archive_of(task, matches)?;
    Some(Invocation::Archive(archive))
}

/// Returns the invocation of `list` that the options in `matches` mean, if they mean one. With `--digest` each line has
/// a digest.
fn list_of<'a>(matches: &ArgMatches<'a>) -> Option<Invocation<'a>>
    ensures means { IfSome result (MeansInvocation (Some (codes "list", rows_of (found_of matches.now)))) }
    ensures served { (invocation : Invocation)
        → MeansInvocation (Some (codes "list", rows_of (found_of matches.now))) invocation
        → IsSome result }
{
    let task = if flag_of(matches, "digest")? {
        Task::Digests
    } else {
        Task::List
    };
    Some(Invocation::Archive(archive_of(task, matches)?))
}

fn annotate_of(matches: &ArgMatches) -> Option<AnnotateOrder>
    ensures are { IfSome result (AnnotateIs (rows_of (found_of matches.now))) }
    ensures served { (annotate : AnnotateOrder) → AnnotateIs (rows_of (found_of matches.now)) annotate
        → IsSome result }
{
    Some(AnnotateOrder {
        form: form_of(matches)?,
        limits: limits_of(matches)?,
        summary: flag_of(matches, "summary")?,
    })
}

fn uniq_of(matches: &ArgMatches) -> Option<UniqOrder>
    ensures are { IfSome result (UniqIs (rows_of (found_of matches.now))) }
    ensures served { (uniq : UniqOrder) → UniqIs (rows_of (found_of matches.now)) uniq → IsSome result }
{
    Some(UniqOrder {
        form: form_of(matches)?,
        limits: limits_of(matches)?,
        keep_going: flag_of(matches, "keep-going")?,
        count: flag_of(matches, "count")?,
    })
}

fn filter_of(matches: &ArgMatches) -> Option<FilterOrder>
    ensures are { IfSome result (FilterIs (rows_of (found_of matches.now))) }
    ensures served { (filter : FilterOrder) → FilterIs (rows_of (found_of matches.now)) filter → IsSome result }
{
    Some(FilterOrder {
        form: form_of(matches)?,
        limits: limits_of(matches)?,
        keep_going: flag_of(matches, "keep-going")?,
        canonical: flag_of(matches, "canonical")?,
    })
}

fn cmp_of(matches: &ArgMatches) -> Option<CmpOrder>
    ensures are { IfSome result (CmpIs (rows_of (found_of matches.now))) }
    ensures served { (cmp : CmpOrder) → CmpIs (rows_of (found_of matches.now)) cmp → IsSome result }
{
    Some(CmpOrder {
        form: stream_form_of(matches)?,
        limits: limits_of(matches)?,
    })
}

fn make_of(matches: &ArgMatches) -> Option<Make>
    ensures are { IfSome result (MakeIs (rows_of (found_of matches.now))) }
    ensures served { (make : Make) → MakeIs (rows_of (found_of matches.now)) make → IsSome result }
{
    Some(Make {
        form: form_of(matches)?,
        quoted: flag_of(matches, "text")?,
    })
}

/// Returns the invocation of `canonical` that the options in `matches` mean, if they mean one. With `--framed` the
/// invocation is a run over an archive. Otherwise the invocation is the command over one message, and `--keep-going`
/// must not be given.
fn canonical_of<'a>(matches: &ArgMatches<'a>) -> Option<Invocation<'a>>
    ensures means { IfSome result (MeansInvocation (Some (codes "canonical", rows_of (found_of matches.now)))) }
    ensures served { (invocation : Invocation)
        → MeansInvocation (Some (codes "canonical", rows_of (found_of matches.now))) invocation
        → IsSome result }
{
    if flag_of(matches, "framed")? {
        return Some(Invocation::Archive(archive_of(Task::Canonical, matches)?));
    }
    if flag_of(matches, "keep-going")? {
        return None;
    }
    let form = form_of(matches)?;
    let limits = limits_of(matches)?;
    Some(Invocation::Message(Command::Canonical(form, limits)))
}

/// Returns the invocation of `pack` that the options in `matches` mean, if they mean one. With `--streaming` output is
/// written while the input is read.
fn pack_of<'a>(matches: &ArgMatches<'a>) -> Option<Invocation<'a>>
    ensures means { IfSome result (MeansInvocation (Some (codes "pack", rows_of (found_of matches.now)))) }
    ensures served { (invocation : Invocation)
        → MeansInvocation (Some (codes "pack", rows_of (found_of matches.now))) invocation
        → IsSome result }
{
    if flag_of(matches, "streaming")? {
        return Some(Invocation::Flow(Flow::Pack));
    }
    Some(Invocation::Message(Command::Pack))
}

/// Returns the invocation of `unpack` that the options in `matches` mean, if they mean one. With `--streaming` output
/// is written while the input is read, and `--message-words` must not be given.
fn unpack_of<'a>(matches: &ArgMatches<'a>) -> Option<Invocation<'a>>
    ensures means { IfSome result (MeansInvocation (Some (codes "unpack", rows_of (found_of matches.now)))) }
    ensures served { (invocation : Invocation)
        → MeansInvocation (Some (codes "unpack", rows_of (found_of matches.now))) invocation
        → IsSome result }
{
    if !flag_of(matches, "streaming")? {
        return Some(Invocation::Message(Command::Unpack(unpacked_words_of(matches)?)));
    }
    if is_usual(matches, "message-words") {
        return Some(Invocation::Flow(Flow::Unpack));
    }
    None
}

/// Returns the invocation of `check` that the options in `matches` mean, if they mean one. With `--one` the input must
/// be exactly one message.
fn check_of<'a>(matches: &ArgMatches<'a>) -> Option<Invocation<'a>>
    ensures means { IfSome result (MeansInvocation (Some (codes "check", rows_of (found_of matches.now)))) }
    ensures served { (invocation : Invocation)
        → MeansInvocation (Some (codes "check", rows_of (found_of matches.now))) invocation
        → IsSome result }
{
    let form = form_of(matches)?;
    let limits = limits_of(matches)?;
    if flag_of(matches, "one")? {
        return Some(Invocation::Message(Command::One(MessageText::Price, form, limits)));
    }
    Some(Invocation::Message(Command::Check(form, limits)))
}

/// Returns the invocation of `hash` that the options in `matches` mean, if they mean one. With `--one` the input must
/// be exactly one message.
fn hash_of<'a>(matches: &ArgMatches<'a>) -> Option<Invocation<'a>>
    ensures means { IfSome result (MeansInvocation (Some (codes "hash", rows_of (found_of matches.now)))) }
    ensures served { (invocation : Invocation)
        → MeansInvocation (Some (codes "hash", rows_of (found_of matches.now))) invocation
        → IsSome result }
{
    let form = form_of(matches)?;
    let limits = limits_of(matches)?;
    if flag_of(matches, "one")? {
        return Some(Invocation::Message(Command::One(MessageText::Digest, form, limits)));
    }
    Some(Invocation::Message(Command::Hash(form, limits)))
}

/// Returns the invocation of the subcommand `name` that the options in `matches` mean, if they mean one.
fn named_invocation<'a>(name: &str, matches: &ArgMatches<'a>) -> Option<Invocation<'a>>
    ensures means { IfSome result (MeansInvocation (Some (name.now, rows_of (found_of matches.now)))) }
    ensures served { (invocation : Invocation)
        → MeansInvocation (Some (name.now, rows_of (found_of matches.now))) invocation
        → IsSome result }
{
    match name {
        "show" => show_of(matches),
        "check" => check_of(matches),
        "explain" => Some(Invocation::Explain(explain_of(matches)?)),
        "annotate" => Some(Invocation::Annotate(annotate_of(matches)?)),
        "list" => list_of(matches),
        "canonical" => canonical_of(matches),
        "uniq" => Some(Invocation::Uniq(uniq_of(matches)?)),
        "filter" => Some(Invocation::Filter(filter_of(matches)?)),
        "cmp" => Some(Invocation::Cmp(cmp_of(matches)?)),
        "pick" => pick_invocation(matches),
        "pack" => pack_of(matches),
        "unpack" => unpack_of(matches),
        "make" => Some(Invocation::Make(make_of(matches)?)),
        "hash" => hash_of(matches),
        _ => task_invocation(name, matches),
    }
}

/// Parses `words`, the words of a command line, and returns the invocation that they mean. The first word is the
/// program's name. Options that are not given have their default values.
///
/// Every other outcome is returned as a `Usage`, with the text for the user. The words may ask for help or for the
/// version. A word, an option or a value may be unknown, or a number out of its range. A form or a tariff may be one
/// that the command does not take. An allocation may be refused. A `Usage` is also returned for a value of `--at` that
/// is no path, a value of `--number` that is no message number, and a value of `--only` that is no list. These options
/// are refused together: `--json` with `--offsets` or `--ways`, `--only` with `--from` or `--to`, `--keep-going` of
/// `explain` with `--number`, and `--message-words` of `unpack` with `--streaming`. `--keep-going` of `canonical` is
/// refused without `--framed`.
pub fn invocation_of<'a, S: AsStr>(alloc: Global, words: &'a [S]) -> Result<Invocation<'a>, Usage>
    // If `result` is `Ok`, the words mean the returned invocation.
    ensures means { IfOk result (MeansInvocation (subcommand_of program_line (map S.text words.now))) }
    // If the parser takes the words and they mean an invocation, that invocation is returned, unless an allocation is
    // refused.
    ensures only { takes program_line (map S.text words.now) ≡ true → (invocation : Invocation)
        → MeansInvocation (subcommand_of program_line (map S.text words.now)) invocation
        → GivesInvocation invocation result }
    // If `result` is `Ok`, no step of the parser fails.
    ensures passes { IfOk result (λ _. fault_of program_line (map S.text words.now) ≡ []) }
    // If `result` is an `Err`, its kind is a reason why the words mean no invocation.
    ensures reason { IfErr result (λ usage. IsReason (map S.text words.now) (kind_of (error_of usage))) }
{
    let tool = program_command(alloc)?;
    let matches = tool.try_get_matches_from(words)?;
    let named = match matches.subcommand() {
        Some((name, found)) => named_invocation(name, found),
        None => None,
    };
    match named {
        Some(invocation) => Ok(invocation),
        None => Err(meaningless(alloc, &matches)),
    }
}
