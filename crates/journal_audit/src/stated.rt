//! The commands and the replies that the entries of a printed journal state.
ghost use Rattle.std.specs.Prelude.{◌≡◌, ◌≤◌, ℕ, Contains, IfOk, List, MatchOption, length, nat_eq};
ghost use Rattle.indexmap.specs.IndexMap.{get};
ghost use Rattle.cert_check.specs.Places.{coflow_with};
ghost use Rattle.live_text.specs.declared.value.TheConstants.{MAX_ENTRIES};
ghost use Rattle.journal_audit.specs.Ids.{Finds};
ghost use Rattle.journal_audit.specs.Looked.{IsStated};
ghost use Rattle.journal_audit.specs.Stated.{IsKnown, command_for, reply_for};

use crate::ids::found;
use coflow_units::NoMemory;
use indexmap::IndexMap;
use journal::{Command, Reply};
use live_text::{EntryLine, Said, Word};
use std::alloc::Global;

/// The command of each entry, or the position of the first entry whose id is no coflow's.
#[derive(Drop)]
pub(crate) enum Stated {
    Commands(Vec<Command>),
    Unknown(u32),
}

/// The commands of the entries. The coflows are told by their ids.
pub(crate) fn commands_of(
    alloc: Global,
    coflows: &IndexMap<u32, u32>,
    entries: &[EntryLine],
) -> Result<Stated, NoMemory>
    requires { length entries.now ≤ MAX_ENTRIES }
    ensures { IfOk result (λ stated. (ids : List ℕ) → Finds ids (get nat_eq coflows.now) →
        IsStated ids entries.now stated) }
{
    let mut commands = Vec::new(alloc);
    for line in entries {
        let Some(command) = command_of(coflows, line.word) else {
            let position = commands.len() as u32 + 1;
            drop(commands);
            return Ok(Stated::Unknown(position));
        };
        commands.push(command)?;
    }
    Ok(Stated::Commands(commands))
}

/// The command of a word, or none where its id is no coflow's.
fn command_of(coflows: &IndexMap<u32, u32>, word: Word) -> Option<Command>
    ensures { (ids : List ℕ) → Finds ids (get nat_eq coflows.now) →
        MatchOption result (IsKnown ids word → ⊥) (λ command. IsKnown ids word × (command ≡ command_for ids word)) }
{
    match word {
        Word::Register(id) => Some(Command::Register(coflow_of(coflows, id)?)),
        Word::Withdraw(id) => Some(Command::Withdraw(coflow_of(coflows, id)?)),
        Word::Publish => Some(Command::Publish),
        Word::Pull(id) => Some(Command::Pull(coflow_of(coflows, id)?)),
        Word::Open(most) => Some(Command::Open(most)),
        Word::Close => Some(Command::Close),
        Word::Reweigh(id, weight) => Some(Command::Reweigh {
            coflow: coflow_of(coflows, id)?,
            weight,
        }),
    }
}

/// The coflow with the id.
fn coflow_of(coflows: &IndexMap<u32, u32>, id: u32) -> Option<u32>
    ensures { (ids : List ℕ) → Finds ids (get nat_eq coflows.now) →
        MatchOption result (Contains ids id → ⊥) (λ coflow. Contains ids id × (coflow ≡ coflow_with ids id)) }
{
    found(coflows, id)
}

/// The reply that the words of an entry state.
pub(crate) fn reply_of(said: Said) -> Reply
    ensures { result ≡ reply_for said }
{
    match said {
        Said::Joined => Reply::Joined,
        Said::Already => Reply::Already,
        Said::Left => Reply::Left,
        Said::NotHere => Reply::NotHere,
        Said::Version(version) => Reply::Version(version),
        Said::StillOpen(slot) => Reply::StillOpen(slot),
        Said::Rank(version, rank) => Reply::Rank(version, rank),
        Said::Unranked(version) => Reply::Unranked(version),
        Said::Opened(slot, slots, count) => Reply::Opened(slot, slots, count),
        Said::Nothing => Reply::NothingLeft,
        Said::Closed(slot) => Reply::Closed(slot),
        Said::Weighed(weight) => Reply::Weighed(weight),
    }
}
