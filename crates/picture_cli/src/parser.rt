//! The words as one simple command.
ghost use Rattle.std.specs.Prelude.{◌≡◌, ◌≢◌, Err, IfOk, []};
ghost use Rattle.clap.specs.Words.{app_of, fault_of, found_of};
ghost use Rattle.command_words.specs.Line.{texts};
ghost use Rattle.command_words.specs.declared.fault.WordsFault.TheVariants.{Usage};
ghost use Rattle.picture_cli.specs.Parser.{IsFound, app, app_with_names, app_with_options, empty_app};

use clap::{ArgMatches, Command};
use command_words::{
    WordsFault, fault_by, flag_named, name_of, needed_name, option_named, with_arg,
};
use std::alloc::{AllocError, Global};

/// What the words give each argument. `Usage` comes where a word is refused, an argument is used twice, or TRACE is
/// missing.
pub(crate) fn matches_of<'a>(
    alloc: Global,
    words: &'a [String],
) -> Result<ArgMatches<'a>, WordsFault>
    ensures found { IfOk result (λ m. IsFound (texts words.entry.now) (found_of m)) }
    ensures usage { result ≡ Err Usage → fault_of app (texts words.entry.now) ≢ [] }
{
    let Ok(command) = picture_command(alloc) else {
        return Err(WordsFault::NoMemory);
    };
    match command.try_get_matches_from(words) {
        Ok(matches) => Ok(matches),
        Err(error) => Err(fault_by(error.kind())),
    }
}

/// The command.
fn picture_command<'a>(alloc: Global) -> Result<Command<'a>, AllocError>
    ensures { IfOk result (λ c. app_of c ≡ app) }
{
    let command = command_with_options(alloc);
    with_arg(command, flag_named(alloc, "policies"))
}

fn command_with_options<'a>(alloc: Global) -> Result<Command<'a>, AllocError>
    ensures { IfOk result (λ c. app_of c ≡ app_with_options) }
{
    let command = command_with_names(alloc);
    let command = with_arg(command, option_named(alloc, "weights"));
    let command = with_arg(command, option_named(alloc, "unit"));
    let command = with_arg(command, option_named(alloc, "from"));
    let command = with_arg(command, option_named(alloc, "to"));
    let command = with_arg(command, option_named(alloc, "side"));
    with_arg(command, option_named(alloc, "slot-ms"))
}

fn command_with_names<'a>(alloc: Global) -> Result<Command<'a>, AllocError>
    ensures { IfOk result (λ c. app_of c ≡ app_with_names) }
{
    let command = with_arg(Ok(empty_command(alloc)), needed_name(alloc, "TRACE"));
    with_arg(command, name_of(alloc, "REPORT"))
}

fn empty_command<'a>(alloc: Global) -> Command<'a>
    ensures { app_of result ≡ empty_app }
{
    Command::new(alloc, "sincronia_picture")
        .disable_help_flag(true)
        .disable_version_flag(true)
}
