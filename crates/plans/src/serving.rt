//! The report of an order that somebody gave.
ghost use Rattle.std.specs.Prelude.{◌≡◌, ◌<◌, ◌≤◌, ℕ, All, Contains, IfOk, length};
ghost use Rattle.coflow_units.specs.declared.limits.TheConstants.{MAX_WEIGHT};
ghost use Rattle.coflow_units.specs.Flows.{IsDistinct};
ghost use Rattle.flow_table.specs.Table.{instance_of};
ghost use Rattle.report_text.specs.Report.{HasSmallNumbers, HasWeights, IsReport};
ghost use Rattle.plans.specs.ServedReport.{IsServedReport};

use crate::order::order_of;
use crate::planning::report_from;
use coflow_units::NoMemory;
use flow_table::Table;
use report_text::Report;
use slot_switch::simulate;
use std::alloc::Global;

/// The report of an order of the coflows of a table that somebody gave: the places of the plan's certificate with the
/// completions of the schedule that serves the given order, the plan's bound and slack, and the cost and the runs of
/// that schedule. So the bound is at most the cost of every valid schedule, and the cost over the bound tells how far
/// the given order may be from the best. A text can have the report, so it may be written and read back.
///
/// `order` has the number of each coflow once, first served first, and `weights` the weight of each coflow, from 1 to
/// 2^32. The error is want of memory.
pub fn report_of_order(
    alloc: Global,
    table: &Table,
    weights: &[u64],
    order: &[u32],
) -> Result<Report, NoMemory>
    requires count { length weights.now ≡ length table.now.ids }
    requires least { All (λ w. 1 ≤ w) weights.now }
    requires weights { All (λ w. w ≤ MAX_WEIGHT) weights.now }
    requires distinct { IsDistinct order.now }
    requires known { All (λ c. c < length table.now.ids) order.now }
    requires all { (c : ℕ) → c < length table.now.ids → Contains order.now c }
    ensures served { IfOk result (IsServedReport (instance_of table.now weights.now) table.now.ids order.now) }
    ensures weights { IfOk result HasWeights }
    ensures report { IfOk result IsReport }
    ensures small { IfOk result HasSmallNumbers }
{
    let plan = order_of(alloc, table, weights)?;
    let schedule = simulate(alloc, table, order)?;
    let report = report_from(alloc, table, weights, plan.places(), schedule)?;
    Ok(report)
}
