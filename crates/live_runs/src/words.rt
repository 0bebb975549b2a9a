//! The words of commands and replies.
ghost use Rattle.std.specs.Prelude.{◌≡◌, length};
ghost use Rattle.journal.specs.declared.opening.Opening.{Opening};
ghost use Rattle.live_model.specs.Printed.{said_of, word_of};
ghost use Rattle.live_runs.specs.Names.{NamesCoflow};

use flow_table::Table;
use journal::{Command, Reply};
use live_text::{Said, Word};

/// The command with the id of its coflow. None where no text has the command.
pub(crate) fn word_of(table: &Table, command: Command) -> Option<Word>
    requires coflow { NamesCoflow (length table.now.ids) command }
    ensures { (o : Opening) → o.table ≡ table.now → result ≡ word_of o command }
{
    match command {
        Command::Register(coflow) => Some(Word::Register(table.id(coflow))),
        Command::Withdraw(coflow) => Some(Word::Withdraw(table.id(coflow))),
        Command::Publish => Some(Word::Publish),
        Command::Pull(coflow) => Some(Word::Pull(table.id(coflow))),
        Command::Open(most) => Some(Word::Open(most)),
        Command::Close => Some(Word::Close),
        Command::Reweigh { coflow, weight } => Some(Word::Reweigh(table.id(coflow), weight)),
        Command::Short(..) => None,
        Command::Skip(_) => None,
    }
}

/// The reply. None where no text has it.
pub(crate) fn said_of(reply: Reply) -> Option<Said>
    ensures { result ≡ said_of reply }
{
    match reply {
        Reply::Joined => Some(Said::Joined),
        Reply::Already => Some(Said::Already),
        Reply::Left => Some(Said::Left),
        Reply::NotHere => Some(Said::NotHere),
        Reply::Version(version) => Some(Said::Version(version)),
        Reply::StillOpen(slot) => Some(Said::StillOpen(slot)),
        Reply::Rank(version, rank) => Some(Said::Rank(version, rank)),
        Reply::Unranked(version) => Some(Said::Unranked(version)),
        Reply::Opened(slot, slots, count) => Some(Said::Opened(slot, slots, count)),
        Reply::NothingLeft => Some(Said::Nothing),
        Reply::Closed(slot) => Some(Said::Closed(slot)),
        Reply::Weighed(weight) => Some(Said::Weighed(weight)),
        Reply::Full(_) => None,
        Reply::Late(_) => None,
        Reply::NotGranted(_) => None,
        Reply::Noted(_) => None,
        Reply::NoneOpen => None,
        Reply::StillOwed(_) => None,
        Reply::Skipped(_) => None,
    }
}
