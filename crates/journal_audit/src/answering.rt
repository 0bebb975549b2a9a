//! One command of a journal, answered anew.
ghost use Rattle.std.specs.Prelude.{◌≡◌, ◌<◌, ◌+◌, ◌++◌, ◌∷◌, [], IfOk, OnOk, length, length as count_of};
ghost use Rattle.journal.specs.Answer.{IsInRange, reply_of, room};
ghost use Rattle.journal.specs.Fold.{state_of};
ghost use Rattle.journal.specs.Journal.{entry, is_version};
ghost use Rattle.journal.specs.Sound.{SoundState};
ghost use Rattle.journal_audit.specs.Replay.{IsPlainCommand, IsReplay, closes, closing_run, even_slots};

use coflow_units::NoMemory;
use journal::{Command, Reply};
use master_core::Master;
use schedule_model::Schedule;

/// A master answers a command that its journal has room for, and the slots of the run that it closes are added to the
/// schedule, each with all flows that the run grants. The command notes no units and skips no slots. The error is want
/// of memory.
pub fn answer(
    master: &mut Master,
    schedule: &mut Schedule,
    who: u32,
    command: Command,
) -> Result<Reply, NoMemory>
    requires room { length master.old.journal < room master.old.opening command }
    requires range { IsInRange master.old.opening command }
    requires plain { IsPlainCommand command }
    requires before { IsReplay master.old.opening master.old.journal schedule.old }
    ensures reply { IfOk result (λ reply. reply ≡ reply_of master.old.opening master.old.journal command) }
    ensures opening { OnOk result (master.new.opening ≡ master.old.opening) }
    ensures journal { IfOk result (λ reply. master.new.journal ≡ master.old.journal ++ entry who command reply ∷ []) }
    ensures after { OnOk result (IsReplay master.old.opening master.new.journal schedule.new) }
{
    push_closing_run(master, schedule, command)?;
    Ok(master.step(who, command))
}

/// Whether the reply tells a new version.
pub fn is_version(reply: Reply) -> bool
    ensures { result ≡ is_version reply }
{
    match reply {
        Reply::Version(_) => true,
        _ => false,
    }
}

/// Adds the slots of the run that the command closes, where one is open, each with all flows that the run grants.
fn push_closing_run(
    master: &Master,
    schedule: &mut Schedule,
    command: Command,
) -> Result<(), NoMemory>
    requires sound { SoundState master.now.opening (state_of master.now.opening master.now.journal) }
    requires passed { count_of schedule.old + 1 ≡ (state_of master.now.opening master.now.journal).next }
    ensures { OnOk result (schedule.new ≡ schedule.old
        ++ even_slots (closing_run command (state_of master.now.opening master.now.journal).run)) }
{
    if !closes(command) {
        return Ok(());
    }
    let Some(slots) = master.open_slots() else {
        return Ok(());
    };
    schedule.push_run(slots, master.granted_flows())
}

fn closes(command: Command) -> bool
    ensures { result ≡ closes command }
{
    match command {
        Command::Close => true,
        _ => false,
    }
}
