//! Scripts: what clients ask, round by round.
ghost use Rattle.std.specs.Prelude.{◌≡◌, ◌≤◌, length};
ghost use Rattle.coflow_units.specs.declared.limits.TheConstants.{MAX_TEXT};
ghost use Rattle.workload.specs.Checks.{Answers, text_checks};
ghost use Rattle.workload.specs.Script.{script_of};

use crate::coflows::Coflows;
use crate::draft::Draft;
use crate::fault::ScriptFault;
use crate::line::step_of;
use coflow_units::{Items, MAX_COMMANDS, Quantity};
use flow_table::Table;
use std::alloc::Global;
use text_fields::Lines;

/// What a client asks. Coflows are told by their numbers.
#[derive(Clone, Copy, Debug, PartialEq, Eq)]
pub enum Asked {
    Register(u32),
    Withdraw(u32),
    Publish,
    Pull(u32),
    /// The coflow, and its new weight, from 1 to 2^32.
    Reweigh(u32, u64),
}

/// A command of a script: its line, from 1, the number of its client, from 1 to 64, and what it asks.
#[derive(Clone, Copy, Debug, PartialEq, Eq)]
pub struct ScriptLine {
    pub line: u32,
    pub client: u32,
    pub asked: Asked,
}

/// A round: its commands in the order of their lines, and whether they run beside a run of slots.
#[derive(Drop)]
pub struct Round {
    pub lines: Items<ScriptLine>,
    pub runs: bool,
}

/// A script: the greatest number of a client, 0 where there is no command, and the rounds.
#[derive(Drop)]
pub struct Script {
    pub clients: u32,
    pub rounds: Items<Round>,
}

/// Reads a script over the coflows of a table from a text of at most 2^26 bytes. Each line with fields is a command `K
/// register ID`, `K withdraw ID`, `K publish`, `K pull ID` or `K reweigh ID WEIGHT` of the client K, from 1 to 64, or
/// is `slot` or `wait` and ends a round. Commands behind the last such line are a last round that ends as by `wait`. An
/// id is told as the number of the first coflow that has it.
///
/// A text that is not so is refused, with the first fault in reading order. Lines are read one after another. In a line
/// these are looked at in turn: the form of field 1 (`Bad`), the range of a client's number (`Limit` of `Clients`), the
/// word in field 2 (`Bad`), the form of an id and that a coflow has it (`Bad` at field 3), the form of a weight (`Bad`)
/// and its range (`Limit` of `Weight`), and that there is no further field (`Bad`). A line without such a fault that is
/// the 65537th one with fields is `Limit` of `Commands` with the count 65537. `NoMemory` may come in place of any
/// answer.
pub fn read_script(alloc: Global, bytes: &[u8], table: &Table) -> Result<Script, ScriptFault>
    requires { length bytes.now ≤ MAX_TEXT }
    ensures { Answers (text_checks table.now.ids bytes.now)
        (λ script. script ≡ script_of table.now.ids bytes.now) result }
{
    let coflows = Coflows::of(alloc, table)?;
    let script = read_with(alloc, bytes, &coflows);
    drop(coflows);
    script
}

/// Reads a script over these coflows.
fn read_with(alloc: Global, bytes: &[u8], coflows: &Coflows<'_>) -> Result<Script, ScriptFault>
    requires { length bytes.now ≤ MAX_TEXT }
    ensures { Answers (text_checks coflows.now bytes.now) (λ script. script ≡ script_of coflows.now bytes.now) result }
{
    let mut lines = Lines::new(bytes);
    let mut draft = Draft::new(alloc);
    let mut count = 0;
    while let Some(mut fields) = lines.next() {
        let step = match step_of(&mut fields, coflows) {
            Ok(step) => step,
            Err(fault) => {
                drop(draft);
                return Err(fault);
            }
        };
        if count == MAX_COMMANDS {
            drop(draft);
            return Err(ScriptFault::Limit {
                which: Quantity::Commands,
                count: u64::from(MAX_COMMANDS) + 1,
            });
        }
        count += 1;
        let Ok(()) = draft.take(step) else {
            drop(draft);
            return Err(ScriptFault::NoMemory);
        };
    }
    let script = draft.finish()?;
    Ok(script)
}
