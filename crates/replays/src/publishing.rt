//! The publishing of an order.
ghost use Rattle.std.specs.Prelude.{◌≡◌, IfOk, OnOk, is_some};
ghost use Rattle.epochs.specs.declared.action.Action.TheVariants.{Publish};
ghost use Rattle.replays.specs.Kept.{MayDo, MayDoOf};
ghost use Rattle.replays.specs.Publishing.{IsPublishing, IsTelling};

use crate::kept::Kept;
use crate::news::tell_news;
use crate::recording::record_order;
use coflow_units::NoMemory;
use flow_table::Table;
use rankers::{Ranker, first_unfit};
use std::alloc::Global;

/// Tells the ranker the news, before each question but the first, and asks it for an order of all coflows, with the
/// loads that those present owe. Where the answer is no order, it gives the first place, from 1, from which on it is
/// none. The error is want of memory.
pub(crate) fn publish(
    alloc: Global,
    table: &Table,
    kept: &mut Kept,
    ranker: &mut Box<dyn Ranker>,
) -> Result<Option<u32>, NoMemory>
    requires may { MayDoOf table.now kept.old Publish }
    ensures publishes { IfOk result
        (IsPublishing table.now kept.old (meaning ranker.old) kept.new (meaning ranker.new)) }
    ensures recorded { OnOk result (is_some kept.new.recording ≡ is_some kept.old.recording) }
{
    tell(kept, ranker);
    kept.questions
        .ask(table, &kept.progress.left, &kept.marks.present, ranker);
    let coflows = table.coflows();
    if let Some(place) = first_unfit(alloc, &kept.questions.answer, coflows)? {
        return Ok(Some(place));
    }
    kept.line
        .replace(&kept.questions.answer, &kept.marks.present)?;
    kept.questions.published += 1;
    record_order(
        &mut kept.recording,
        alloc,
        table,
        &kept.progress,
        &kept.marks.present,
        &kept.line.coflows,
    )?;
    Ok(None)
}

/// Tells the ranker the news, before each question but the first.
fn tell(kept: &mut Kept, ranker: &mut Box<dyn Ranker>)
    requires may { MayDo kept.old Publish }
    ensures tells { IsTelling kept.old (meaning ranker.old) kept.new (meaning ranker.new) }
    ensures recorded { kept.new.recording ≡ kept.old.recording }
{
    if kept.questions.published == 0 {
        return;
    }
    tell_news(
        &kept.progress,
        &mut kept.marks,
        &mut kept.questions.answer,
        ranker,
    );
}
