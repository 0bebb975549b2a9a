//! The jobs: each command with what it takes.
ghost use Rattle.std.specs.Prelude.{◌≡◌, option_map};
ghost use Rattle.command_words.specs.Jobs.{alone, file_job, files_job, job_by, job_of, seed_of, with_policy};

use crate::values::{file_of, seed_of};

/// What the program is asked to do: a command, with the names of files or the number behind it.
#[derive(Clone, Copy, Debug, PartialEq, Eq)]
pub enum Job<'a> {
    /// `plan TRACE` plans a trace.
    Plan { trace: &'a str },
    /// `check TRACE REPORT` tests a report of a plan against its trace.
    Check { trace: &'a str, report: &'a str },
    /// `make SEED` makes a trace from a number.
    Make { seed: u64 },
    /// `compare TRACE` puts rankers side by side on a trace.
    Compare { trace: &'a str },
    /// `classes TRACE` folds the order of a trace into classes.
    Classes { trace: &'a str },
    /// `audit TRACE JOURNAL` tests a printed journal against a trace.
    Audit { trace: &'a str, journal: &'a str },
    /// `online TRACE` serves a trace as its coflows arrive.
    Online { trace: &'a str },
    /// `live TRACE SCRIPT` carries out a script of clients over a trace.
    Live { trace: &'a str, script: &'a str },
    /// `serve TRACE ORDER` serves the coflows of a trace in a given order.
    Serve { trace: &'a str, order: &'a str },
    /// `replay TRACE` serves a trace as its coflows arrive, by each ranker of a bench.
    Replay { trace: &'a str },
    /// `replay TRACE --policy NAME` serves a trace as its coflows arrive, by the ranker of this name alone.
    Record { trace: &'a str, policy: &'a str },
}

/// The job where the option `--policy` names a ranker, if it is used. `replay` takes the name; another job stays as it
/// is.
pub(crate) fn with_policy<'a>(job: Job<'a>, policy: Option<&'a str>) -> Job<'a>
    ensures { job_by result ≡ with_policy (option_map (λ s. s.now) policy.entry) (job_by job.entry) }
{
    let Some(policy) = policy else {
        return job;
    };
    match job {
        Job::Replay { trace } => Job::Record { trace, policy },
        job => job,
    }
}

/// The job of the command of this name and the words behind it. `None` where there is no such command, or it does not
/// take them.
pub(crate) fn job_of<'a>(name: &str, first: &'a str, second: Option<&'a str>) -> Option<Job<'a>>
    ensures { option_map job_by result ≡ job_of name.now first.now (option_map (λ s. s.now) second.entry) }
{
    if name == "make" {
        let seed = seed_alone(first, second)?;
        return Some(Job::Make { seed });
    }
    let trace = file_of(first)?;
    match second {
        None => job_of_file(name, trace),
        Some(second) => job_of_files(name, trace, file_of(second)?),
    }
}

/// The job of a command that takes one file.
fn job_of_file<'a>(name: &str, trace: &'a str) -> Option<Job<'a>>
    ensures { option_map job_by result ≡ file_job name.now trace.now }
{
    match name {
        "plan" => Some(Job::Plan { trace }),
        "compare" => Some(Job::Compare { trace }),
        "classes" => Some(Job::Classes { trace }),
        "online" => Some(Job::Online { trace }),
        "replay" => Some(Job::Replay { trace }),
        _ => None,
    }
}

/// The job of a command that takes two files.
fn job_of_files<'a>(name: &str, trace: &'a str, other: &'a str) -> Option<Job<'a>>
    ensures { option_map job_by result ≡ files_job name.now trace.now other.now }
{
    match name {
        "check" => Some(Job::Check {
            trace,
            report: other,
        }),
        "audit" => Some(Job::Audit {
            trace,
            journal: other,
        }),
        "live" => Some(Job::Live {
            trace,
            script: other,
        }),
        "serve" => Some(Job::Serve {
            trace,
            order: other,
        }),
        _ => None,
    }
}

/// The first word as a number, where there is no second one.
fn seed_alone<'a>(first: &'a str, second: Option<&'a str>) -> Option<u64>
    ensures { result ≡ alone (seed_of first.now) (option_map (λ s. s.now) second.entry) }
{
    match second {
        Some(_) => None,
        None => seed_of(first),
    }
}
