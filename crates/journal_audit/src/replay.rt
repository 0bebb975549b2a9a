//! The entries of a printed journal, asked of a master anew.
ghost use Rattle.std.specs.Prelude.{◌≡◌, ◌≤◌, ◌<◌, ◌∷◌, ◌++◌, ℕ, All, IfOk, IsTrue, ◌↔◌, List, [], MatchOption, OnOk, length, map};
ghost use Rattle.coflow_units.specs.declared.limits.TheConstants.{MAX_COFLOWS};
ghost use Rattle.journal.specs.Answer.{IsInRange, reply_of, room};
ghost use Rattle.journal.specs.Journal.{entry};
ghost use Rattle.journal.specs.declared.opening.Opening.{Opening};
ghost use Rattle.live_text.specs.declared.value.TheConstants.{MAX_ENTRIES};
ghost use Rattle.live_text.specs.declared.value.EntryLine.{EntryLine};
ghost use Rattle.live_text.specs.Live.{IsEntry};
ghost use Rattle.journal_audit.specs.Replay.{IsPlainCommand};
ghost use Rattle.journal_audit.specs.Replayed.{IsReplayed, IsWrongEntry};
ghost use Rattle.journal_audit.specs.Stated.{IsKnown, command_for, stated_by};

use crate::answering::answer;
use crate::orders::{WrongOrder, wrong_order_after};
use crate::ranks::rank_newest;
use crate::stated::reply_of;
use coflow_units::{Items, NoMemory};
use indexmap::IndexMap;
use journal::{Command, Reply};
use live_text::{EntryLine, Said};
use master_core::Master;
use schedule_model::Schedule;
use std::alloc::Global;

/// What is taken down while a master answers: the slots of the runs that it closed, for each version the rank of each
/// coflow, counted from 1, and the first stated order that is not the master's.
#[derive(Drop)]
pub(crate) struct Replayed {
    pub(crate) schedule: Schedule,
    pub(crate) ranks: Vec<IndexMap<u32, u32>>,
    pub(crate) wrong: Option<WrongOrder>,
}

impl Replayed {
    /// What is taken down before the first entry.
    pub(crate) fn new(alloc: Global) -> Replayed
        ensures { (o : Opening) (orders : List (List ℕ)) → IsReplayed o [] orders result }
    {
        Replayed {
            schedule: Schedule::new(alloc),
            ranks: Vec::new(alloc),
            wrong: None,
        }
    }
}

/// An entry that the master answers otherwise.
#[derive(Clone, Copy)]
pub(crate) struct WrongEntry {
    pub(crate) position: u32,
    pub(crate) stated: Said,
    pub(crate) real: Reply,
}

/// A master without entries answers the commands of the entries, one after another, up to the first reply that is not
/// the stated one. The error is want of memory.
pub(crate) fn replay(
    alloc: Global,
    master: &mut Master,
    replayed: &mut Replayed,
    commands: &[Command],
    entries: &[EntryLine],
    orders: &[Items<u32>],
) -> Result<Option<WrongEntry>, NoMemory>
    requires few { length master.old.opening.table.ids ≤ MAX_COFLOWS }
    requires few_entries { length entries.now ≤ MAX_ENTRIES }
    requires limit { length entries.now ≤ master.old.opening.limit }
    requires entry { All IsEntry entries.now }
    requires known { All (λ (e : EntryLine). IsKnown master.old.opening.table.ids e.word) entries.now }
    requires commands { commands.now ≡
        map (λ (e : EntryLine). command_for master.old.opening.table.ids e.word) entries.now }
    requires empty { master.old.journal ≡ [] }
    requires nothing { IsReplayed master.old.opening [] orders.now replayed.old }
    ensures opening { OnOk result (master.new.opening ≡ master.old.opening) }
    ensures found { IfOk result (λ wrong. MatchOption wrong
        ((master.new.journal ≡ stated_by master.old.opening.table.ids entries.now)
        × IsReplayed master.old.opening master.new.journal orders.now replayed.new)
        (IsWrongEntry master.old.opening entries.now)) }
{
    for index in 0..commands.len() {
        let line = entries[index];
        let real = take_down(alloc, master, replayed, line.who, commands[index], orders)?;
        if !is_same_reply(real, reply_of(line.said)) {
            return Ok(Some(WrongEntry {
                position: index as u32 + 1,
                stated: line.said,
                real,
            }));
        }
    }
    Ok(None)
}

/// The master answers a command, and what it does is taken down. The error is want of memory.
fn take_down(
    alloc: Global,
    master: &mut Master,
    replayed: &mut Replayed,
    who: u32,
    command: Command,
    orders: &[Items<u32>],
) -> Result<Reply, NoMemory>
    requires few { length master.old.opening.table.ids ≤ MAX_COFLOWS }
    requires room { length master.old.journal < room master.old.opening command }
    requires range { IsInRange master.old.opening command }
    requires plain { IsPlainCommand command }
    requires before { IsReplayed master.old.opening master.old.journal orders.now replayed.old }
    ensures reply { IfOk result (λ reply. reply ≡ reply_of master.old.opening master.old.journal command) }
    ensures opening { OnOk result (master.new.opening ≡ master.old.opening) }
    ensures journal { IfOk result (λ reply. master.new.journal ≡ master.old.journal ++ entry who command reply ∷ []) }
    ensures after { OnOk result (IsReplayed master.old.opening master.new.journal orders.now replayed.new) }
{
    let reply = answer(master, &mut replayed.schedule, who, command)?;
    rank_newest(alloc, master, &mut replayed.ranks, reply)?;
    replayed.wrong = wrong_order_after(master, orders, replayed.wrong, reply);
    Ok(reply)
}

fn is_same_reply(one: Reply, other: Reply) -> bool
    ensures { IsTrue result ↔ (one ≡ other) }
{
    one == other
}
