//! The words as one simple command.
ghost use Rattle.std.specs.Prelude.{◌≡◌, Err, IfOk, List, Some, drop, map};
ghost use Rattle.std.specs.List.{fold};
ghost use Rattle.clap.specs.Words.{App, app_of, found_of};
ghost use Rattle.command_words.specs.Line.{Use, texts, uses};
ghost use Rattle.command_words.specs.Parser.{Finds, IsAccepted, app, app_with_names, empty_app, with_option};
ghost use Rattle.command_words.specs.declared.fault.WordsFault.TheVariants.{Usage};

use crate::arguments::{fault_by, name_of, needed_name, option_named, with_arg};
use crate::fault::WordsFault;
use clap::{ArgMatches, Command};
use std::alloc::{AllocError, Global};

/// The names of the options, each of which has a value.
const OPTIONS: [&str; 9] = [
    "weights", "unit", "agents", "epoch", "run", "slot-ms", "classes", "fold", "policy",
];

/// What the words give each argument. `Usage` comes where a word is refused, an argument is used twice, or COMMAND or
/// FIRST is missing.
pub fn matches_of<'a>(alloc: Global, words: &'a [String]) -> Result<ArgMatches<'a>, WordsFault>
    ensures found { IfOk result (λ m. Finds (texts words.entry.now) (found_of m)) }
    ensures usage { result ≡ Err Usage → (us : List Use) → uses None 1 (drop 1 (texts words.entry.now)) ≡ Some us →
        IsAccepted us → ⊥ }
{
    let Ok(command) = command(alloc) else {
        return Err(WordsFault::NoMemory);
    };
    match command.try_get_matches_from(words) {
        Ok(matches) => Ok(matches),
        Err(error) => Err(fault_by(error.kind())),
    }
}

fn command<'a>(alloc: Global) -> Result<Command<'a>, AllocError>
    ensures { IfOk result (λ c. app_of c ≡ app) }
{
    with_options(alloc, command_with_names(alloc), &OPTIONS)
}

/// The command with the options of these names, where there is a command. The error is want of memory.
fn with_options<'a>(
    alloc: Global,
    mut command: Result<Command<'a>, AllocError>,
    names: &[&'a str],
) -> Result<Command<'a>, AllocError>
    ensures { (a : App) → IfOk command.entry (λ c. app_of c ≡ a) →
        IfOk result (λ c. app_of c ≡ fold with_option a (map (λ s. s.now) names.now)) }
{
    for name in names {
        command = with_arg(command, option_named(alloc, name));
    }
    command
}

fn command_with_names<'a>(alloc: Global) -> Result<Command<'a>, AllocError>
    ensures { IfOk result (λ c. app_of c ≡ app_with_names) }
{
    let command = with_arg(Ok(empty_command(alloc)), needed_name(alloc, "COMMAND"));
    let command = with_arg(command, needed_name(alloc, "FIRST"));
    with_arg(command, name_of(alloc, "SECOND"))
}

fn empty_command<'a>(alloc: Global) -> Command<'a>
    ensures { app_of result ≡ empty_app }
{
    Command::new(alloc, "sincronia")
        .disable_help_flag(true)
        .disable_version_flag(true)
}
