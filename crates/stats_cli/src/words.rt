//! What a command line says.
ghost use Rattle.std.specs.Prelude.{◌≡◌, Err, IfNone, IfOk, IfSome};
ghost use Rattle.clap.specs.Words.{first_value, found_of};
ghost use Rattle.command_words.specs.Line.{texts};
ghost use Rattle.command_words.specs.declared.fault.WordsFault.TheVariants.{Usage};
ghost use Rattle.stats_cli.specs.Words.{IsSaid, IsStatsWords, StatsSaid, said_by};

use crate::parser::matches_of;
use crate::value::StatsWords;
use clap::ArgMatches;
use coflow_units::MAX_SLOT_MS;
use command_words::{WordsFault, is_file_name, is_used, setting_of, unit_of};
use std::alloc::Global;

/// Reads the words of a command line, the first of which is the program's name.
///
/// `Usage` comes exactly where the words say nothing, and `NoMemory` where no memory was to be had.
pub fn read_words<'a>(alloc: Global, words: &'a [String]) -> Result<StatsWords<'a>, WordsFault>
    ensures said { IfOk result (λ w. IsStatsWords (texts words.entry.now) (said_by w)) }
    ensures usage { result ≡ Err Usage → (said : StatsSaid) → IsStatsWords (texts words.entry.now) said → ⊥ }
{
    let matches = matches_of(alloc, words)?;
    match words_of(&matches) {
        Some(words) => Ok(words),
        None => Err(WordsFault::Usage),
    }
}

/// What the arguments say by their values, or `None` where a value does not fit.
fn words_of<'a>(matches: &ArgMatches<'a>) -> Option<StatsWords<'a>>
    ensures some { IfSome result (λ w. IsSaid (first_value (found_of matches.now)) (said_by w)) }
    ensures none { IfNone result ((said : StatsSaid) → IsSaid (first_value (found_of matches.now)) said → ⊥) }
{
    let trace = matches.get_str("TRACE")?;
    if !is_file_name(trace) {
        return None;
    }
    let report = matches.get_str("REPORT")?;
    if !is_file_name(report) {
        return None;
    }
    let weights = matches.get_str("weights");
    if let Some(name) = weights {
        if !is_file_name(name) {
            return None;
        }
    }
    let unit = unit_of(matches.get_str("unit"))?;
    let time = matches.get_str("slot-ms");
    let slot_ms = setting_of(time, MAX_SLOT_MS, 8)?;
    Some(StatsWords {
        trace,
        report,
        weights,
        unit,
        slot_ms,
        in_ms: time.is_some(),
        csv: is_used(matches.get_str("csv")),
    })
}
