//! A journal that a second master answers anew.
ghost use Rattle.std.specs.Prelude.{◌≡◌, ◌∷◌, ◌++◌, [], IfOk, OnOk};
ghost use Rattle.journal.specs.declared.opening.Opening.{Opening};
ghost use Rattle.journal.specs.Journal.{IsLegal};
ghost use Rattle.journal.specs.Sound.{InRange};
ghost use Rattle.journal_audit.specs.Replay.{IsPlain};
ghost use Rattle.live_runs.specs.Retold.{IsRetold, MayFollow};

use crate::orders::push_newest;
use coflow_units::{Items, NoMemory};
use journal::Entry;
use journal_audit::answer;
use master_core::Master;
use schedule_model::Schedule;
use std::alloc::Global;

/// What a second master tells of a journal: the orders of its versions by their ids, and the slots of the runs that
/// were closed.
#[derive(Drop)]
pub(crate) struct Retold {
    pub(crate) orders: Vec<Items<u32>>,
    pub(crate) schedule: Schedule,
}

impl Retold {
    /// What is told before the first entry.
    fn new(alloc: Global) -> Retold
        ensures { (o : Opening) → IsRetold o [] result }
    {
        Retold {
            orders: Vec::new(alloc),
            schedule: Schedule::new(alloc),
        }
    }
}

/// What is told of the journal of a master that began with these weights and this limit. A second master that begins in
/// the same way answers it anew, since a master keeps no order but the newest. The error is want of memory.
pub(crate) fn retold_of(
    alloc: Global,
    closed: &Master,
    weights: Items<u64>,
    limit: u32,
) -> Result<Retold, NoMemory>
    requires weights { weights ≡ closed.now.opening.weights }
    requires limit { limit ≡ closed.now.opening.limit }
    requires plain { IsPlain closed.now.journal }
    ensures { IfOk result (IsRetold closed.now.opening closed.now.journal) }
{
    let journal = closed.journal();
    let table = closed.table().copy(alloc)?;
    let mut master = Master::new(alloc, table, weights, limit)?;
    let retold = retold_by(alloc, &mut master, journal);
    drop(master);
    retold
}

/// The same, by a master without entries that begins in the same way. The error is want of memory.
fn retold_by(alloc: Global, master: &mut Master, journal: &[Entry]) -> Result<Retold, NoMemory>
    requires empty { master.old.journal ≡ [] }
    requires legal { IsLegal master.old.opening journal.now }
    requires in_range { InRange master.old.opening journal.now }
    requires plain { IsPlain journal.now }
    ensures { IfOk result (IsRetold master.old.opening journal.now) }
{
    let mut retold = Retold::new(alloc);
    retell(alloc, master, &mut retold, journal)?;
    Ok(retold)
}

/// A master without entries answers the commands of a journal, one after another. The error is want of memory.
fn retell(
    alloc: Global,
    master: &mut Master,
    retold: &mut Retold,
    journal: &[Entry],
) -> Result<(), NoMemory>
    requires empty { master.old.journal ≡ [] }
    requires legal { IsLegal master.old.opening journal.now }
    requires in_range { InRange master.old.opening journal.now }
    requires plain { IsPlain journal.now }
    requires nothing { IsRetold master.old.opening [] retold.old }
    ensures { OnOk result (IsRetold master.old.opening journal.now retold.new) }
{
    for entry in journal {
        retell_entry(alloc, master, retold, *entry)?;
    }
    Ok(())
}

/// The master answers the command of an entry anew, and what it tells is taken down. The error is want of memory.
fn retell_entry(
    alloc: Global,
    master: &mut Master,
    retold: &mut Retold,
    entry: Entry,
) -> Result<(), NoMemory>
    requires follows { MayFollow master.old.opening master.old.journal entry }
    requires before { IsRetold master.old.opening master.old.journal retold.old }
    ensures opening { OnOk result (master.new.opening ≡ master.old.opening) }
    ensures journal { OnOk result (master.new.journal ≡ master.old.journal ++ entry ∷ []) }
    ensures after { OnOk result (IsRetold master.old.opening master.new.journal retold.new) }
{
    let reply = answer(master, &mut retold.schedule, entry.who, entry.command)?;
    push_newest(alloc, master, &mut retold.orders, reply)?;
    Ok(())
}
