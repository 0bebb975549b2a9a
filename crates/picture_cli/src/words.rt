//! What a command line says.
ghost use Rattle.std.specs.Prelude.{◌≡◌, Err, IfNone, IfOk, IfSome, option_map};
ghost use Rattle.clap.specs.Words.{first_value, found_of};
ghost use Rattle.command_words.specs.Jobs.{IsFileName};
ghost use Rattle.command_words.specs.Line.{Text, texts};
ghost use Rattle.command_words.specs.declared.fault.WordsFault.TheVariants.{Usage};
ghost use Rattle.coflow_units.specs.declared.fabric.Side.{Side};
ghost use Rattle.picture_cli.specs.Words.{IsPictureWords, IsSaid, IsSaidBesides, IsSide, PictureSaid, ReportSaid, said_by, said_with};
ghost use Rattle.picture_cli.specs.Words.PictureSaid.{of_report};

use crate::parser::matches_of;
use crate::value::{Options, PictureWords, PoliciesWords, ReportWords};
use clap::ArgMatches;
use coflow_units::{MAX_SLOT, MAX_SLOT_MS, Side};
use command_words::{WordsFault, is_file_name, is_used, setting_of, unit_of};
use std::alloc::Global;

/// Reads the words of a command line, the first of which is the program's name.
///
/// `Usage` comes exactly where the words say nothing, and `NoMemory` where no memory was to be had.
pub fn read_words<'a>(alloc: Global, words: &'a [String]) -> Result<PictureWords<'a>, WordsFault>
    ensures said { IfOk result (λ w. IsPictureWords (texts words.entry.now) (said_by w)) }
    ensures usage { result ≡ Err Usage → (said : PictureSaid) → IsPictureWords (texts words.entry.now) said → ⊥ }
{
    let matches = matches_of(alloc, words)?;
    match words_of(&matches) {
        Some(words) => Ok(words),
        None => Err(WordsFault::Usage),
    }
}

/// What the arguments say by their values, or `None` where a value does not fit, where there is neither a report nor
/// the flag of policies, and where there are both.
fn words_of<'a>(matches: &ArgMatches<'a>) -> Option<PictureWords<'a>>
    ensures some { IfSome result (λ w. IsSaid (first_value (found_of matches.now)) (said_by w)) }
    ensures none { IfNone result ((said : PictureSaid) → IsSaid (first_value (found_of matches.now)) said → ⊥) }
{
    let options = options_of(matches)?;
    let asked = is_used(matches.get_str("policies"));
    match (matches.get_str("REPORT"), asked) {
        (Some(report), false) => with_report(options, report),
        (None, true) => Some(PictureWords::Policies(PoliciesWords {
            trace: options.trace,
            weights: options.weights,
            unit: options.unit,
        })),
        _ => None,
    }
}

/// The words that name a report, or `None` where that is no name of a file.
fn with_report<'a>(options: Options<'a>, report: &'a str) -> Option<PictureWords<'a>>
    ensures some { IfSome result (λ w. IsFileName report.entry.now ×
        (said_by w ≡ of_report (said_with options.entry report.entry.now))) }
    ensures none { IfNone result (IsFileName report.entry.now → ⊥) }
{
    if !is_file_name(report) {
        return None;
    }
    Some(PictureWords::Report(ReportWords {
        trace: options.trace,
        report,
        weights: options.weights,
        unit: options.unit,
        from: options.from,
        to: options.to,
        side: options.side,
        slot_ms: options.slot_ms,
    }))
}

/// What the arguments say besides the name of a report, or `None` where a value does not fit.
fn options_of<'a>(matches: &ArgMatches<'a>) -> Option<Options<'a>>
    ensures some { IfSome result
        (λ o. (report : Text) → IsSaidBesides (first_value (found_of matches.now)) (said_with o report)) }
    ensures none { IfNone result
        ((said : ReportSaid) → IsSaidBesides (first_value (found_of matches.now)) said → ⊥) }
{
    let trace = matches.get_str("TRACE")?;
    if !is_file_name(trace) {
        return None;
    }
    let weights = matches.get_str("weights");
    if let Some(name) = weights {
        if !is_file_name(name) {
            return None;
        }
    }
    let unit = unit_of(matches.get_str("unit"))?;
    let from = setting_of(matches.get_str("from"), MAX_SLOT, 1)?;
    let to = setting_of(matches.get_str("to"), MAX_SLOT, MAX_SLOT)?;
    let side = side_of(matches.get_str("side"))?;
    let slot_ms = setting_of(matches.get_str("slot-ms"), MAX_SLOT_MS, 8)?;
    Some(Options {
        trace,
        weights,
        unit,
        from,
        to,
        side,
        slot_ms,
    })
}

/// The side of a word, or ingress where there is no word. `None` for another word.
fn side_of(word: Option<&str>) -> Option<Side>
    ensures some { IfSome result (IsSide (option_map (λ s. s.now) word.entry)) }
    ensures none { IfNone result ((side : Side) → IsSide (option_map (λ s. s.now) word.entry) side → ⊥) }
{
    match word {
        None | Some("in") => Some(Side::Ingress),
        Some("out") => Some(Side::Egress),
        Some(_) => None,
    }
}
