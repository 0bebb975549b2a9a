//! One line of a client.
ghost use Rattle.std.specs.Prelude.{◌≡◌, ◌<◌, length};
ghost use Rattle.journal.specs.Answer.{IsInRange};
ghost use Rattle.workload.specs.declared.script.Asked.TheVariants.{Pull};
ghost use Rattle.client_session.specs.Models.{IsSessionOf};
ghost use Rattle.live_model.specs.Script.{command_of};
ghost use Rattle.live_rounds.specs.Lines.{ComesTo, TellsVersion, pull_told, without_pull, with_pull};

use crate::answer::{PullDone, TurnStop};
use client_session::{Answer, Hall, Session};
use journal::Reply;
use rank_board::Pulled;
use std::sync::Wait;
use workload::{Asked, ScriptLine};

/// Carries out a line in its client's session. Where it is a pull it is answered what the pull was told.
///
/// The error is that a turn found no room in the journal, or that no call was left for one.
pub fn carry_out<R: Wait>(
    rt: &R,
    hall: &Hall,
    session: &mut Session,
    line: ScriptLine,
) -> Result<Option<PullDone>, TurnStop>
    requires own { IsSessionOf hall.now session.old }
    requires range { IsInRange hall.now.setting.opening (command_of line.asked) }
    ensures { ComesTo hall.now.setting.opening line session.old session.new result }
{
    match line.asked {
        Asked::Register(coflow) => no_pull(session.register(rt, hall, coflow)),
        Asked::Withdraw(coflow) => no_pull(session.withdraw(rt, hall, coflow)),
        Asked::Publish => no_pull(session.publish(rt, hall)),
        Asked::Pull(coflow) => pull(rt, hall, session, line, coflow),
        Asked::Reweigh(coflow, weight) => no_pull(session.reweigh(rt, hall, coflow, weight)),
    }
}

// What a turn that is no pull comes to.
fn no_pull(answer: Answer) -> Result<Option<PullDone>, TurnStop>
    ensures { result ≡ without_pull answer }
{
    match answer {
        Answer::Done(_receipt) => Ok(None),
        Answer::Full(entries) => Err(TurnStop::Full(entries)),
        Answer::Spent => Err(TurnStop::Spent),
    }
}

// Reads a rank from the board, and asks for it in a turn where a publishing that is under way hid it.
fn pull<R: Wait>(
    rt: &R,
    hall: &Hall,
    session: &mut Session,
    line: ScriptLine,
    coflow: u32,
) -> Result<Option<PullDone>, TurnStop>
    requires own { IsSessionOf hall.now session.old }
    requires asked { line.asked ≡ Pull coflow }
    requires coflow { coflow < length hall.now.setting.opening.table.ids }
    ensures { ComesTo hall.now.setting.opening line session.old session.new result }
{
    match session.pull(hall, coflow) {
        Pulled::Rank { version, rank } => Ok(Some(told(line, coflow, version, rank))),
        Pulled::Unranked { version } => Ok(Some(told(line, coflow, version, 0))),
        Pulled::Moved { front: _, found: _ } => {
            let answer = session.pull_turn(rt, hall, coflow);
            pull_by_turn(line, coflow, answer)
        }
    }
}

// What a turn that is a pull comes to.
fn pull_by_turn(line: ScriptLine, coflow: u32, answer: Answer) -> Result<Option<PullDone>, TurnStop>
    requires reply { TellsVersion answer }
    ensures { result ≡ with_pull line coflow answer }
{
    match answer {
        Answer::Done(receipt) => match receipt.reply {
            Reply::Rank(version, rank) => Ok(Some(told(line, coflow, version, rank))),
            Reply::Unranked(version) => Ok(Some(told(line, coflow, version, 0))),
            _ => unreachable!(),
        },
        Answer::Full(entries) => Err(TurnStop::Full(entries)),
        Answer::Spent => Err(TurnStop::Spent),
    }
}

// What the pull of a line was told.
fn told(line: ScriptLine, coflow: u32, version: u32, rank: u32) -> PullDone
    ensures { result ≡ pull_told line coflow version rank }
{
    PullDone {
        client: line.client,
        line: line.line,
        coflow,
        version,
        rank,
    }
}
