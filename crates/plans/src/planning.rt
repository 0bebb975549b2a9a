//! The report of a plan, and what the certificate of its order proves.
ghost use Rattle.std.specs.Prelude.{◌≡◌, ◌≤◌, ℕ, All, IfOk, List, length};
ghost use Rattle.coflow_units.specs.declared.limits.TheConstants.{MAX_WEIGHT};
ghost use Rattle.coflow_units.specs.Certificate.{bound, slack};
ghost use Rattle.coflow_units.specs.Served.{IsServed};
ghost use Rattle.bssi_order.specs.Order.{IsOrder, entries_of};
ghost use Rattle.flow_table.specs.Table.{instance_of};
ghost use Rattle.report_text.specs.Report.{HasSmallNumbers, HasWeights, IsReport};
ghost use Rattle.plans.specs.PlanReport.{IsPlanOf, coflows_of};
ghost use Rattle.plans.specs.ServedReport.{IsServedReport};
ghost use Rattle.plans.specs.Totals.{IsPlanBound};

use crate::order::{loads_of, order_of};
use crate::places::{place_lines, place_weights};
use coflow_units::{Items, NoMemory, Place};
use dual_cert::{Cert, bound, slack};
use flow_table::Table;
use report_text::Report;
use schedule_model::{Schedule, completions, cost_of};
use std::alloc::Global;

/// The report of the plan of the coflows of a table, from the places of the order by bottleneck, select, scale, iterate
/// and the schedule that serves it: the places with their completions, the bound and slack of the order's certificate,
/// the cost, and the runs of the schedule. A text can have the report, so it may be written and read back. `weights`
/// has the weight of each coflow, from 1 to 2^32. The error is want of memory.
pub fn report_of(
    alloc: Global,
    table: &Table,
    weights: &[u64],
    places: &[Place],
    schedule: Schedule,
) -> Result<Report, NoMemory>
    requires count { length weights.now ≡ length table.now.ids }
    requires least { All (λ w. 1 ≤ w) weights.now }
    requires weights { All (λ w. w ≤ MAX_WEIGHT) weights.now }
    requires order { IsOrder (instance_of table.now weights.now) places.now }
    requires served { IsServed table.now.flows (coflows_of places.now) schedule }
    ensures plan { IfOk result (λ report.
        (planned : IsPlanOf (instance_of table.now weights.now) table.now.ids report) × (planned.slots ≡ schedule)) }
    ensures weights { IfOk result HasWeights }
    ensures report { IfOk result IsReport }
    ensures small { IfOk result HasSmallNumbers }
{
    let report = report_from(alloc, table, weights, places, schedule)?;
    Ok(report)
}

/// The report of the places of a plan and of a schedule, which is that of each line that the schedule serves.
pub(crate) fn report_from(
    alloc: Global,
    table: &Table,
    weights: &[u64],
    places: &[Place],
    schedule: Schedule,
) -> Result<Report, NoMemory>
    requires count { length weights.now ≡ length table.now.ids }
    requires least { All (λ w. 1 ≤ w) weights.now }
    requires weights { All (λ w. w ≤ MAX_WEIGHT) weights.now }
    requires order { IsOrder (instance_of table.now weights.now) places.now }
    requires served { (line : List ℕ) × IsServed table.now.flows line schedule }
    ensures served { IfOk result (λ report. (line : List ℕ) → IsServed table.now.flows line schedule →
        (served : IsServedReport (instance_of table.now weights.now) table.now.ids line report) ×
        (served.order ≡ places.now) × (served.slots ≡ schedule)) }
    ensures weights { IfOk result HasWeights }
    ensures report { IfOk result IsReport }
    ensures small { IfOk result HasSmallNumbers }
{
    let ends = completions(alloc, table.flows(), table.coflows(), &schedule)?;
    let lines = place_lines(alloc, table, places, &ends)?;
    let cost = cost_of(weights, &ends);
    drop(ends);
    let list = place_weights(alloc, weights, places)?;
    let values = values_of(alloc, table, weights, places)?;
    Ok(Report {
        places: Items::from_vec(lines),
        weights: Some(Items::from_vec(list)),
        bound: values.bound,
        slack: values.slack,
        cost,
        runs: schedule.into_runs(),
    })
}

/// What the certificate of an order proves.
#[derive(Drop)]
struct Values {
    bound: u128,
    slack: u128,
}

/// The bound and the slack of the certificate of the places.
fn values_of(
    alloc: Global,
    table: &Table,
    weights: &[u64],
    places: &[Place],
) -> Result<Values, NoMemory>
    requires count { length weights.now ≡ length table.now.ids }
    requires weights { All (λ w. w ≤ MAX_WEIGHT) weights.now }
    requires order { IsOrder (instance_of table.now weights.now) places.now }
    ensures bound { IfOk result (λ values. values.bound ≡ bound table.now.flows (entries_of places.now)) }
    ensures slack { IfOk result (λ values.
        values.slack ≡ slack table.now.flows (instance_of table.now weights.now).weight (entries_of places.now)) }
{
    let loads = loads_of(alloc, table)?;
    let cert = Cert::of(alloc, places)?;
    let bound = bound(&loads, &cert);
    let slack = slack(&loads, weights, &cert);
    Ok(Values { bound, slack })
}

/// The bound that the plan has, found without its schedule: no valid schedule costs less. `weights` has the weight of
/// each coflow, at most 2^32. The error is want of memory.
pub fn bound_of(alloc: Global, table: &Table, weights: &[u64]) -> Result<u128, NoMemory>
    requires count { length weights.now ≡ length table.now.ids }
    requires weights { All (λ w. w ≤ MAX_WEIGHT) weights.now }
    ensures { IfOk result (IsPlanBound (instance_of table.now weights.now)) }
{
    let order = order_of(alloc, table, weights)?;
    let values = values_of(alloc, table, weights, order.places())?;
    Ok(values.bound)
}
