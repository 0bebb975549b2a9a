//! A round of a script.
ghost use Rattle.std.specs.Prelude.{◌≡◌, ◌+◌, ◌≤◌, ◌++◌, IfOk, Err, length, All, vec_capacity, []};
ghost use Rattle.client_session.specs.Models.{IsSessionOf};
ghost use Rattle.live_rounds.specs.declared.answer.RoundStop.{RoundStop};
ghost use Rattle.live_rounds.specs.Parts.{Collects, pulls_together};
ghost use Rattle.live_rounds.specs.Rounds.{IsRoundDone, IsRoundStopped, MayAsk};

use crate::answer::{PullDone, RoundStop};
use crate::gate::Gate;
use crate::part::{Part, parts_of};
use crate::playing::play_all;
use client_session::{Hall, Session};
use std::alloc::Global;
use std::sync::Wait;
use std::thread::Threads;
use workload::ScriptLine;

/// Carries out the lines of a round. The client of number K uses session K, counted from 1, on a thread of its own and
/// in the order of its lines. Before each command it passes its gate. There is a gate for each session. It takes turns,
/// which may wait.
///
/// The answer are the pulls, by client and then by line, with the version that each was told and the rank of its
/// coflow. A pull reads the board of ranks. Where a publishing that is under way hides the rank there, the client asks
/// in a turn, which then has an entry in the journal.
///
/// `Full` and `Spent` come only where a turn of this round was answered so, and are those of the least such client.
/// That client carries out no later line. `NoMemory` comes before any command.
pub fn round<R: Threads + Wait + Sync, G: Gate + Send>(
    alloc: Global,
    rt: &R,
    hall: &Hall,
    sessions: &mut [Session],
    lines: &[ScriptLine],
    gates: &mut [G],
) -> Result<Vec<PullDone>, RoundStop>
    requires sessions { All (IsSessionOf hall.now) sessions.old }
    requires gates { length gates.old ≡ length sessions.old }
    requires lines { All (MayAsk hall.now.setting.opening (length sessions.old)) lines.now }
    ensures own { All (IsSessionOf hall.now) sessions.new }
    ensures as_many { length sessions.new ≡ length sessions.old }
    ensures done { IfOk result (λ pulls.
        IsRoundDone hall.now.setting.opening lines.now sessions.old sessions.new pulls.items) }
    ensures stopped { (stop : RoundStop) → result ≡ Err stop →
        IsRoundStopped hall.now.setting.opening lines.now sessions.old sessions.new stop }
{
    let Ok(mut parts) = parts_of(alloc, lines, sessions.len()) else {
        return Err(RoundStop::NoMemory);
    };
    let Ok(pulls) = Vec::with_capacity(alloc, lines.len()) else {
        drop(parts);
        return Err(RoundStop::NoMemory);
    };
    play_all(rt, hall, sessions, gates, &mut parts);
    collect(parts, pulls)
}

// The pulls of all parts, in their order, for which there is room; or why the first part that stopped did so.
fn collect(parts: Vec<Part>, pulls: Vec<PullDone>) -> Result<Vec<PullDone>, RoundStop>
    requires empty { pulls.items ≡ [] }
    requires room { length (pulls_together parts.items) ≤ vec_capacity pulls }
    ensures { Collects parts.items result }
{
    let mut pulls = pulls;
    for part in parts {
        if let Some(stop) = part.stop {
            drop(part);
            drop(pulls);
            return Err(stop.of_round());
        }
        push_all(&mut pulls, &part.pulls);
        drop(part);
    }
    Ok(pulls)
}

// Puts all of these behind the pulls, for which there is room.
fn push_all(pulls: &mut Vec<PullDone>, more: &[PullDone])
    requires room { length pulls.old.items + length more.now ≤ vec_capacity pulls.old }
    ensures items { pulls.new.items ≡ pulls.old.items ++ more.now }
    ensures room { vec_capacity pulls.new ≡ vec_capacity pulls.old }
{
    for pull in more {
        pulls.push_reserved(*pull);
    }
}
