//! The words as one simple command.
ghost use Rattle.std.specs.Prelude.{◌≡◌, ◌≢◌, Err, IfOk, []};
ghost use Rattle.clap.specs.Words.{app_of, fault_of, found_of};
ghost use Rattle.command_words.specs.Line.{texts};
ghost use Rattle.command_words.specs.declared.fault.WordsFault.TheVariants.{Usage};
ghost use Rattle.stats_cli.specs.Parser.{IsFound, app, empty_app, with_names};

use clap::{ArgMatches, Command};
use command_words::{WordsFault, fault_by, flag_named, needed_name, option_named, with_arg};
use std::alloc::{AllocError, Global};

/// What the words give each argument. `Usage` comes where a word is refused, an argument is used twice, or TRACE or
/// REPORT is missing.
pub(crate) fn matches_of<'a>(
    alloc: Global,
    words: &'a [String],
) -> Result<ArgMatches<'a>, WordsFault>
    ensures found { IfOk result (λ m. IsFound (texts words.entry.now) (found_of m)) }
    ensures usage { result ≡ Err Usage → fault_of app (texts words.entry.now) ≢ [] }
{
    let Ok(command) = stats_command(alloc) else {
        return Err(WordsFault::NoMemory);
    };
    match command.try_get_matches_from(words) {
        Ok(matches) => Ok(matches),
        Err(error) => Err(fault_by(error.kind())),
    }
}

/// The command.
fn stats_command<'a>(alloc: Global) -> Result<Command<'a>, AllocError>
    ensures { IfOk result (λ c. app_of c ≡ app) }
{
    let command = command_with_names(alloc);
    let command = with_arg(command, option_named(alloc, "weights"));
    let command = with_arg(command, option_named(alloc, "unit"));
    let command = with_arg(command, option_named(alloc, "slot-ms"));
    with_arg(command, flag_named(alloc, "csv"))
}

fn command_with_names<'a>(alloc: Global) -> Result<Command<'a>, AllocError>
    ensures { IfOk result (λ c. app_of c ≡ with_names empty_app) }
{
    let command = with_arg(Ok(empty_command(alloc)), needed_name(alloc, "TRACE"));
    with_arg(command, needed_name(alloc, "REPORT"))
}

fn empty_command<'a>(alloc: Global) -> Command<'a>
    ensures { app_of result ≡ empty_app }
{
    Command::new(alloc, "sincronia_stats")
        .disable_help_flag(true)
        .disable_version_flag(true)
}
