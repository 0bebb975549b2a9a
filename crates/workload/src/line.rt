//! One line of a script, and what it adds to it.
ghost use Rattle.std.specs.Prelude.{◌≡◌};
ghost use Rattle.text_fields.specs.Numbers.{number};
ghost use Rattle.workload.specs.Checks.{Answers, ask_checks, client_checks, coflow_checks, end_checks, id_checks, line_checks, weighing_checks, weight_checks};
ghost use Rattle.workload.specs.Operands.{coflow_at, coflow_in, weight_in};
ghost use Rattle.workload.specs.Script.{asked_of, step_of as step_of_line};
ghost use Rattle.workload.specs.declared.script.Asked.TheVariants.{Publish, Reweigh};

use crate::coflows::Coflows;
use crate::fault::ScriptFault;
use crate::script::{Asked, ScriptLine};
use crate::word::{End, Word, end_of, word_of};
use coflow_units::{MAX_CLIENTS, MAX_WEIGHT, Quantity};
use text_fields::{Fields, number_of};

/// What a line adds to the script.
pub(crate) fn step_of(fields: &mut Fields<'_>, coflows: &Coflows<'_>) -> Result<Step, ScriptFault>
    ensures { Answers (line_checks coflows.now fields.old) (λ step. step ≡ step_of_line coflows.now fields.old) result }
{
    let line = fields.line();
    let first = fields.next();
    if let Some(end) = end_of(first) {
        no_more(fields, 2)?;
        return Ok(Step::Ends(end));
    }
    let client = client_in(first, line)?;
    let asked = asked_in(fields, coflows)?;
    Ok(Step::Ask(ScriptLine {
        line,
        client,
        asked,
    }))
}

/// No field is left, of which the next one would have this number.
fn no_more(fields: &Fields<'_>, field: u32) -> Result<(), ScriptFault>
    ensures { Answers (end_checks fields.now field) (λ _. Unit {0}) result }
{
    if fields.is_done() {
        Ok(())
    } else {
        Err(ScriptFault::Bad {
            line: fields.line(),
            field,
        })
    }
}

/// The client that the field spells.
fn client_in(field: &[u8], line: u32) -> Result<u32, ScriptFault>
    ensures { Answers (client_checks line field.now) (λ client. client ≡ number field.now) result }
{
    let Some(count) = number_of(field) else {
        return Err(ScriptFault::Bad { line, field: 1 });
    };
    if count < 1 || count > u64::from(MAX_CLIENTS) {
        return Err(ScriptFault::Limit {
            which: Quantity::Clients,
            count,
        });
    }
    Ok(count as u32)
}

/// What the fields behind a client ask.
fn asked_in(fields: &mut Fields<'_>, coflows: &Coflows<'_>) -> Result<Asked, ScriptFault>
    ensures { Answers (ask_checks coflows.now fields.old) (λ asked. asked ≡ asked_of coflows.now fields.old) result }
{
    let Some(word) = word_of(fields.next()) else {
        return Err(ScriptFault::Bad {
            line: fields.line(),
            field: 2,
        });
    };
    match word {
        Word::Publish => publishing(fields),
        Word::Reweigh => reweighing(fields, coflows),
        Word::Register => Ok(Asked::Register(only_coflow(fields, coflows)?)),
        Word::Withdraw => Ok(Asked::Withdraw(only_coflow(fields, coflows)?)),
        Word::Pull => Ok(Asked::Pull(only_coflow(fields, coflows)?)),
    }
}

/// A line that has no field behind the word.
fn publishing(fields: &Fields<'_>) -> Result<Asked, ScriptFault>
    ensures { Answers (end_checks fields.now 3) (λ asked. asked ≡ Publish) result }
{
    no_more(fields, 3)?;
    Ok(Asked::Publish)
}

/// A line that has a coflow and a weight behind the word.
fn reweighing(fields: &mut Fields<'_>, coflows: &Coflows<'_>) -> Result<Asked, ScriptFault>
    ensures { Answers (weighing_checks coflows.now fields.old)
        (λ asked. asked ≡ Reweigh (coflow_in coflows.now fields.old) (weight_in fields.old)) result }
{
    let line = fields.line();
    let coflow = known(fields.next(), line, coflows)?;
    let weight = weight_within(fields.next(), line)?;
    no_more(fields, 5)?;
    Ok(Asked::Reweigh(coflow, weight))
}

/// A line that has a coflow alone behind the word.
fn only_coflow(fields: &mut Fields<'_>, coflows: &Coflows<'_>) -> Result<u32, ScriptFault>
    ensures { Answers (coflow_checks coflows.now fields.old)
        (λ coflow. coflow ≡ coflow_in coflows.now fields.old) result }
{
    let line = fields.line();
    let coflow = known(fields.next(), line, coflows)?;
    no_more(fields, 4)?;
    Ok(coflow)
}

/// The coflow whose id the field spells.
fn known(field: &[u8], line: u32, coflows: &Coflows<'_>) -> Result<u32, ScriptFault>
    ensures { Answers (id_checks coflows.now line field.now)
        (λ coflow. coflow ≡ coflow_at coflows.now field.now) result }
{
    let Some(id) = number_of(field) else {
        return Err(ScriptFault::Bad { line, field: 3 });
    };
    let Some(coflow) = coflows.number(id) else {
        return Err(ScriptFault::Bad { line, field: 3 });
    };
    Ok(coflow)
}

/// The weight that the field spells, where it is from 1 to the greatest one.
fn weight_within(field: &[u8], line: u32) -> Result<u64, ScriptFault>
    ensures { Answers (weight_checks line field.now) (λ weight. weight ≡ number field.now) result }
{
    let Some(count) = number_of(field) else {
        return Err(ScriptFault::Bad { line, field: 4 });
    };
    if count < 1 || count > MAX_WEIGHT {
        return Err(ScriptFault::Limit {
            which: Quantity::Weight,
            count,
        });
    }
    Ok(count)
}

/// A command, or the end of a round.
#[derive(Clone, Copy, Debug, PartialEq, Eq)]
pub(crate) enum Step {
    Ask(ScriptLine),
    Ends(End),
}
