//! The lines of entries.
ghost use Rattle.std.specs.Prelude.{◌≡◌, All, IfOk, Some, length, map};
ghost use Rattle.std.specs.Option.{IsSome};
ghost use Rattle.journal.specs.declared.command.Entry.{Entry};
ghost use Rattle.journal.specs.declared.opening.Opening.{Opening};
ghost use Rattle.live_model.specs.Printed.{told_entry};
ghost use Rattle.live_runs.specs.Names.{NamesCoflow};

use crate::words::{said_of, word_of};
use coflow_units::NoMemory;
use flow_table::Table;
use journal::Entry;
use live_text::EntryLine;
use master_core::Master;
use std::alloc::Global;

/// The entries of a journal, each by its words. There are words for each of them: nothing is noted, no slot is skipped,
/// and no reply is one that a driver gets of a fault.
///
/// The error is want of memory.
pub fn entry_lines(alloc: Global, closed: &Master) -> Result<Vec<EntryLine>, NoMemory>
    requires words { All (λ (e : Entry). IsSome (told_entry closed.now.opening e)) closed.now.journal }
    ensures { IfOk result (λ lines. map (told_entry closed.now.opening) closed.now.journal ≡ map Some lines.items) }
{
    let journal = closed.journal();
    let mut lines = Vec::with_capacity(alloc, journal.len())?;
    for entry in journal {
        let Some(line) = entry_line(closed.table(), *entry) else {
            unreachable!();
        };
        lines.push_reserved(line);
    }
    Ok(lines)
}

/// The line of an entry, where it has words.
fn entry_line(table: &Table, entry: Entry) -> Option<EntryLine>
    requires coflow { NamesCoflow (length table.now.ids) entry.command }
    ensures { (o : Opening) → o.table ≡ table.now → result ≡ told_entry o entry }
{
    let Some(word) = word_of(table, entry.command) else {
        return None;
    };
    let Some(said) = said_of(entry.reply) else {
        return None;
    };
    Some(EntryLine {
        who: entry.who,
        word,
        said,
    })
}
