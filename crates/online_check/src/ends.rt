//! What an online run says of its completions and its cost.
ghost use Rattle.std.specs.Prelude.{◌≡◌, ◌≤◌, ◌<◌, ℕ, All, IfOk, List, MatchOption, length, slice_index};
ghost use Rattle.coflow_units.specs.declared.limits.TheConstants.{MAX_COFLOWS, MAX_WEIGHT};
ghost use Rattle.coflow_units.specs.Schedule.{IsValid};
ghost use Rattle.flow_table.specs.Table.{instance_of};
ghost use Rattle.online_text.specs.Online.{IsOnline};
ghost use Rattle.schedule_model.specs.RunList.{slots_in};
ghost use Rattle.online_check.specs.Done.{IsFirstUnlisted, IsFirstWrongEnd, ids_done, slots_done};
ghost use Rattle.online_check.specs.Parts.{HasSoundEnds, IsFirstFrom};
ghost use Rattle.online_check.specs.Reasons.{ends_kind};

use crate::verdict::OnlineReason;
use coflow_units::NoMemory;
use flow_table::Table;
use online_text::{DoneLine, Online};
use schedule_model::{completions_of_runs, cost_of};
use std::alloc::Global;

/// The first reason of the completions and the cost, where the schedule is valid.
pub(crate) fn wrong_ends(
    alloc: Global,
    table: &Table,
    weights: &[u64],
    online: &Online,
) -> Result<Option<OnlineReason>, NoMemory>
    requires weight_each { length weights.now ≡ length table.now.ids }
    requires weight_range { All (λ w. w ≤ MAX_WEIGHT) weights.now }
    requires online { IsOnline online.now }
    requires valid { IsValid table.now.flows (slots_in online.now.runs) }
    ensures { IfOk result (λ found. (arrival : ℕ → ℕ) →
        MatchOption found (HasSoundEnds (instance_of table.now weights.now) table.now.ids online.now)
        (IsFirstFrom (instance_of table.now weights.now) arrival table.now.ids online.now ends_kind)) }
{
    let done = online.done.as_slice();
    if let Some(index) = first_unlisted(table, done) {
        return Ok(Some(OnlineReason::Listed { index }));
    }
    let ends = completions_of_runs(alloc, table.flows(), table.coflows(), &online.runs)?;
    if let Some(coflow) = first_wrong_end(done, &ends) {
        return Ok(Some(OnlineReason::DoneWrong {
            coflow,
            stated: done[coflow as usize].slot,
            real: ends[coflow as usize],
        }));
    }
    let real = cost_of(weights, &ends);
    let stated = online.cost;
    if stated != real {
        return Ok(Some(OnlineReason::CostWrong { stated, real }));
    }
    Ok(None)
}

/// The number of the first line, counted from 1, that is not that of the coflow with the number before.
fn first_unlisted(table: &Table, done: &[DoneLine]) -> Option<u32>
    ensures { MatchOption result (ids_done done.now ≡ table.now.ids)
        (IsFirstUnlisted table.now.ids (ids_done done.now)) }
{
    for coflow in 0..table.coflows() {
        let Some(line) = done.get(coflow as usize) else {
            return Some(coflow + 1);
        };
        if line.id != table.id(coflow) {
            return Some(coflow + 1);
        }
    }
    if done.len() > table.coflows() as usize {
        return Some(table.coflows() + 1);
    }
    None
}

/// The least coflow whose completion is another. There is a line for each coflow.
fn first_wrong_end(done: &[DoneLine], ends: &[u64]) -> Option<u32>
    requires each { length done.now ≡ length ends.now }
    requires few { length ends.now ≤ MAX_COFLOWS }
    ensures { MatchOption result
        ((c : ℕ) → c < length ends.now → slice_index (slots_done done.now) c ≡ slice_index ends.now c)
        (λ c. IsFirstWrongEnd (slots_done done.now) (slice_index ends.now) c (slice_index (slots_done done.now) c)
        (slice_index ends.now c)) }
{
    for coflow in 0..ends.len() {
        if done[coflow].slot != ends[coflow] {
            return Some(coflow as u32);
        }
    }
    None
}
