//! The parts of a round, one for each client.
ghost use Rattle.std.specs.Prelude.{◌≡◌, ◌<◌, length, vec_capacity, IfOk};
ghost use Rattle.live_rounds.specs.Parts.{AreParts, IsPart, Keeps};

use crate::answer::{PullDone, TurnStop};
use coflow_units::NoMemory;
use std::alloc::Global;
use workload::ScriptLine;

/// The part of one client: its lines, in order, what its pulls were told so far, and why it stopped, where it did.
#[derive(Drop)]
pub(crate) struct Part {
    pub(crate) lines: Vec<ScriptLine>,
    pub(crate) pulls: Vec<PullDone>,
    pub(crate) stop: Option<TurnStop>,
}

/// The parts of so many clients, whose numbers count from 1, with room for what their pulls will be told. The error is
/// want of memory.
pub(crate) fn parts_of(
    alloc: Global,
    lines: &[ScriptLine],
    clients: usize,
) -> Result<Vec<Part>, NoMemory>
    ensures { IfOk result (λ parts. (length parts.items ≡ clients) × AreParts lines.now 1 parts.items) }
{
    let mut parts = Vec::with_capacity(alloc, clients)?;
    for index in 0..clients {
        let Ok(part) = part_of(alloc, lines, index + 1) else {
            drop(parts);
            return Err(NoMemory);
        };
        parts.push_reserved(part);
    }
    Ok(parts)
}

// The part of the client of this number.
fn part_of(alloc: Global, lines: &[ScriptLine], number: usize) -> Result<Part, NoMemory>
    ensures { IfOk result (IsPart lines.now number) }
{
    let mut mine = Vec::new(alloc);
    for line in lines {
        if line.client as usize == number {
            mine.push(*line)?;
        }
    }
    let pulls = Vec::with_capacity(alloc, mine.len())?;
    Ok(Part {
        lines: mine,
        pulls,
        stop: None,
    })
}

/// Keeps what a line came to, for which there is room: what a pull was told, or why the client stops. The answer is
/// whether it goes on.
pub(crate) fn keep(part: &mut Part, answer: Result<Option<PullDone>, TurnStop>) -> bool
    requires room { length part.old.pulls.items < vec_capacity part.old.pulls }
    ensures { Keeps part.old part.new answer result }
{
    match answer {
        Ok(Some(pull)) => part.pulls.push_reserved(pull),
        Ok(None) => {}
        Err(stop) => {
            part.stop = Some(stop);
            return false;
        }
    }
    true
}

/// Whether a client of these parts has a line.
pub(crate) fn has_lines(parts: &[Part]) -> bool {
    for part in parts {
        if part.lines.len() > 0 {
            return true;
        }
    }
    false
}
