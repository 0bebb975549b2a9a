//! The lines of pulls.
ghost use Rattle.std.specs.Prelude.{◌≡◌, ◌<◌, ◌++◌, All, IfOk, OnOk, flat_map, length, map};
ghost use Rattle.std.specs.List.{range_with_len};
ghost use Rattle.live_rounds.specs.declared.answer.PullDone.{PullDone};
ghost use Rattle.live_serving.specs.Followed.{pulls_for};
ghost use Rattle.live_serving.specs.Ends.{pull_line};

use coflow_units::NoMemory;
use flow_table::Table;
use live_rounds::PullDone;
use live_text::PullLine;
use std::alloc::Global;

/// The lines of the pulls of so many clients, whose numbers count from 1: by client, and those of a client in the order
/// in which they are given, which is that of rounds and lines.
///
/// The error is want of memory.
pub fn pull_lines(
    alloc: Global,
    table: &Table,
    pulls: &[PullDone],
    clients: u32,
) -> Result<Vec<PullLine>, NoMemory>
    requires coflows { All (λ (p : PullDone). p.coflow < length table.now.ids) pulls.now }
    ensures { IfOk result (λ lines. lines.items
        ≡ flat_map (λ k. map (pull_line table.now.ids) (pulls_for k pulls.now)) (range_with_len 1 clients)) }
{
    let mut lines = Vec::new(alloc);
    for before in 0..clients {
        push_client(&mut lines, table, pulls, before + 1)?;
    }
    Ok(lines)
}

// Puts the lines of the pulls of one client behind the others.
fn push_client(
    lines: &mut Vec<PullLine>,
    table: &Table,
    pulls: &[PullDone],
    client: u32,
) -> Result<(), NoMemory>
    requires coflows { All (λ (p : PullDone). p.coflow < length table.now.ids) pulls.now }
    ensures { OnOk result (lines.new.items
        ≡ lines.old.items ++ map (pull_line table.now.ids) (pulls_for client pulls.now)) }
{
    for pull in pulls {
        if pull.client == client {
            lines.push(PullLine {
                client: pull.client,
                line: pull.line,
                id: table.id(pull.coflow),
                version: pull.version,
                rank: pull.rank,
            })?;
        }
    }
    Ok(())
}
