//! What a command line says.
ghost use Rattle.std.specs.Prelude.{◌≡◌, ◌↔◌, Err, IfNone, IfOk, IfSome, IsTrue, Some, option_map};
ghost use Rattle.clap.specs.Words.{first_value, found_of};
ghost use Rattle.command_words.specs.Jobs.{IsFileName, IsPolicy, job_by};
ghost use Rattle.command_words.specs.Jobs.{Job as JobSaid};
ghost use Rattle.command_words.specs.Line.{texts};
ghost use Rattle.command_words.specs.Words.{IsSaid, IsWords, Said, job_of_values, said_by, said_with};
ghost use Rattle.command_words.specs.declared.fault.WordsFault.TheVariants.{Usage};

use crate::fault::WordsFault;
use crate::job::{Job, job_of, with_policy};
use crate::options::{MAX_OPTION_AGENTS, MAX_OPTION_CLASSES, Options};
use crate::parser::matches_of;
use crate::values::{fold_of, is_file_name, is_policy, setting_of, unit_of};
use clap::ArgMatches;
use coflow_units::{MAX_OPTION_SLOTS, MAX_SLOT_MS};
use std::alloc::Global;

/// What a command line says: the job and the options.
#[derive(Clone, Copy, Debug, PartialEq, Eq)]
pub struct Words<'a> {
    pub job: Job<'a>,
    pub options: Options<'a>,
}

/// Reads the words of a command line, the first of which is the program's name.
///
/// The others are `COMMAND FIRST` or `COMMAND FIRST SECOND`, as the command wants it, and options before, between or
/// behind them: `--weights FILE`, `--unit MEGABYTES`, `--agents NUMBER`, `--epoch SLOTS`, `--run SLOTS`,
/// `--slot-ms MILLISECONDS`, `--classes NUMBER`, `--fold count` or `--fold load`, and `--policy NAME`, each at most
/// once. An option's value is the next word, which may then not begin with a dash, or stands behind an equals sign. A
/// word `--` ends the options. A name of a file is not empty and is not `-`, a number is one or more decimal digits,
/// and the name of a policy has from 1 to 16 lower-case letters. An option that the command does not use is read and
/// tested all the same.
///
/// `Usage` comes exactly where the words are not such, and `NoMemory` where no memory was to be had.
#[tactic(auto, using(crate::proofs::FoundWords::words_found, crate::proofs::FoundWords::found_words))]
pub fn read_words<'a>(alloc: Global, words: &'a [String]) -> Result<Words<'a>, WordsFault>
    ensures said { IfOk result (λ w. IsWords (texts words.entry.now) (said_by w)) }
    ensures usage { result ≡ Err Usage → (said : Said) → IsWords (texts words.entry.now) said → ⊥ }
{
    let matches = matches_of(alloc, words)?;
    let words = words_of(&matches);
    drop(matches);
    words.ok_or(WordsFault::Usage)
}

/// What the arguments say by their values, or `None` where a value does not fit.
fn words_of<'a>(matches: &ArgMatches<'a>) -> Option<Words<'a>>
    ensures some { IfSome result (λ w. IsSaid (first_value (found_of matches.now)) (said_by w)) }
    ensures none { IfNone result ((said : Said) → IsSaid (first_value (found_of matches.now)) said → ⊥) }
{
    let job = job_in(matches)?;
    let options = options_of(matches)?;
    Some(Words { job, options })
}

/// The job that COMMAND, FIRST, SECOND and the option `--policy` give, or `None` where they give none.
fn job_in<'a>(matches: &ArgMatches<'a>) -> Option<Job<'a>>
    ensures { option_map job_by result ≡ job_of_values (first_value (found_of matches.now)) }
{
    let name = matches.get_str("COMMAND")?;
    let first = matches.get_str("FIRST")?;
    let job = job_of(name, first, matches.get_str("SECOND"))?;
    Some(with_policy(job, matches.get_str("policy")))
}

/// The options by their values, or `None` where a value does not fit.
fn options_of<'a>(matches: &ArgMatches<'a>) -> Option<Options<'a>>
    ensures some { (job : JobSaid) → job_of_values (first_value (found_of matches.now)) ≡ Some job →
        IfSome result (λ o. IsSaid (first_value (found_of matches.now)) (said_with job o)) }
    ensures none { IfNone result ((said : Said) → IsSaid (first_value (found_of matches.now)) said → ⊥) }
{
    let weights = matches.get_str("weights");
    let policy = matches.get_str("policy");
    if !is_optional_name(weights) || !is_optional_policy(policy) {
        return None;
    }
    let unit = unit_of(matches.get_str("unit"))?;
    let agents = setting_of(matches.get_str("agents"), MAX_OPTION_AGENTS, 4)?;
    let epoch = setting_of(matches.get_str("epoch"), MAX_OPTION_SLOTS, 1024)?;
    let run = setting_of(matches.get_str("run"), MAX_OPTION_SLOTS, 1)?;
    let slot_ms = setting_of(matches.get_str("slot-ms"), MAX_SLOT_MS, 8)?;
    let classes = setting_of(matches.get_str("classes"), MAX_OPTION_CLASSES, 8)?;
    let fold = fold_of(matches.get_str("fold"))?;
    Some(Options {
        weights,
        unit,
        agents,
        epoch,
        run,
        slot_ms,
        classes,
        fold,
    })
}

/// There is no name, or it is the name of a file.
fn is_optional_name(name: Option<&str>) -> bool
    ensures { IsTrue result ↔ IfSome (option_map (λ s. s.now) name.entry) IsFileName }
{
    match name {
        Some(name) => is_file_name(name),
        None => true,
    }
}

/// There is no name, or it is one that a ranker may have.
fn is_optional_policy(name: Option<&str>) -> bool
    ensures { IsTrue result ↔ IfSome (option_map (λ s. s.now) name.entry) IsPolicy }
{
    match name {
        Some(name) => is_policy(name),
        None => true,
    }
}
