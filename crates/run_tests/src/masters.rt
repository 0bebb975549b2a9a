//! Masters that tests ask. A test that finds no memory stops at once.
ghost use Rattle.std.specs.Prelude.{◌≡◌, ◌∷◌, [], All, IsTrue, Ok};
ghost use Rattle.std.specs.Option.{IsSome};
ghost use Rattle.journal.specs.declared.command.Entry.{Entry};
ghost use Rattle.journal.specs.declared.opening.Opening.{Opening};
ghost use Rattle.live_model.specs.Printed.{told_entry};

use coflow_units::{Items, UnitSize};
use journal::{Command, Entry, Reply};
use master_core::Master;
use std::alloc::Global;
use std::process::Abort;
use test_support::table_of_text;

/// A coflow of 3 units with id 1, and one of 1 unit with id 2. They share both ports.
const TWO: &str = "2 2\n1 0 1 0 1 1:3\n2 0 1 0 1 1:1\n";

/// The value of an answer that only want of memory can refuse.
pub(crate) fn had<T, E: Drop>(rt: &impl Abort, answer: Result<T, E>) -> T
    ensures { answer ≡ Ok result }
{
    match answer {
        Ok(value) => value,
        Err(_) => panic!(rt; "no memory"),
    }
}

/// Weight 1 for each of the two coflows.
pub(crate) fn weights_of_two(rt: &impl Abort, alloc: Global) -> Items<u64>
    ensures { result ≡ 1 ∷ 1 ∷ [] }
{
    Items::from_vec(had(rt, vec![in alloc; 1u64; 2]))
}

/// A master of the two coflows, whose journal takes 100 entries.
pub(crate) fn master_of_two(rt: &impl Abort, alloc: Global) -> Master
    ensures weights { result.opening.weights ≡ 1 ∷ 1 ∷ [] }
    ensures limit { result.opening.limit ≡ 100 }
{
    let weights = weights_of_two(rt, alloc);
    let table = had(rt, table_of_text(alloc, TWO.as_bytes(), UnitSize::MEGABYTE));
    assert!(rt; table.coflows() == 2);
    had(rt, Master::new(alloc, table, weights, 100))
}

/// Asks the master these commands of callers, one after another.
pub(crate) fn ask_all(rt: &impl Abort, master: &mut Master, asks: &[(u32, Command)])
    ensures { master.new.opening ≡ master.old.opening }
{
    for (who, command) in asks {
        assert!(rt; master.is_in_range(*command));
        let _reply = master.step(*who, *command);
    }
}

/// Whether each entry of the journal has words.
pub(crate) fn are_worded(closed: &Master) -> bool
    ensures { IsTrue result → All (λ (e : Entry). IsSome (told_entry closed.now.opening e)) closed.now.journal }
{
    for entry in closed.journal() {
        if !is_worded(*entry) {
            return false;
        }
    }
    true
}

/// Whether the entry has words. It may have none where the answer is no.
fn is_worded(entry: Entry) -> bool
    ensures { IsTrue result → (o : Opening) → IsSome (told_entry o entry) }
{
    match entry.command {
        Command::Short(..) | Command::Skip(_) => return false,
        _ => {}
    }
    match entry.reply {
        Reply::Full(_) | Reply::Late(_) | Reply::NotGranted(_) | Reply::Noted(_) => false,
        Reply::NoneOpen | Reply::StillOwed(_) | Reply::Skipped(_) => false,
        _ => true,
    }
}
