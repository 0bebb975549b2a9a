//! The classes of coflows.
ghost use Rattle.std.specs.Prelude.{◌≡◌, ◌≤◌, All, IfOk, OnOk, length, map};
ghost use Rattle.coflow_units.specs.declared.limits.TheConstants.{MAX_WEIGHT};
ghost use Rattle.class_rates.specs.Classes.{class_of};
ghost use Rattle.class_rates.specs.declared.classes.TheConstants.{MAX_CLASSES};
ghost use Rattle.flow_table.specs.Table.{IsTable};
ghost use Rattle.report_text.specs.declared.classed.ClassText.{ClassText};
ghost use Rattle.report_text.specs.Classed.{class_text};
ghost use Rattle.rankers.specs.ClassList.{IsClassList, IsListOf, member_of};

use crate::facts::Facts;
use class_rates::{Classes, Fold, cap, fold_order};
use coflow_units::{Items, NoMemory};
use flow_table::Table;
use report_text::{ClassText, Member, Text, write_classes};
use schedule_model::{completions, cost_of};
use slot_switch::simulate;
use std::alloc::Global;

/// The text of the coflows of a table in classes, from 1 to 64 of them, and of the schedule that serves the class
/// order.
///
/// The order by bottleneck, select, scale, iterate is folded into the classes, by count or by load. There is a weight
/// for each coflow, at most 2^32. The error is want of memory.
pub fn classes_text(
    alloc: Global,
    table: &Table,
    weights: &[u64],
    by: Fold,
    classes: u32,
) -> Result<Text, NoMemory>
    requires count { length weights.now ≡ length table.now.ids }
    requires least { All (λ w. 1 ≤ w) weights.now }
    requires weights { All (λ w. w ≤ MAX_WEIGHT) weights.now }
    requires some { 1 ≤ classes }
    requires few { classes ≤ MAX_CLASSES }
    ensures { IfOk result (λ text. (c : ClassText) × IsClassList table.now weights.now by classes c ×
        (text ≡ class_text c)) }
{
    let facts = Facts::of(alloc, table, weights)?;
    let folded = fold_order(alloc, facts.order(), facts.bottlenecks(), by, classes)?;
    drop(facts);
    let list = class_list(alloc, table, weights, &folded)?;
    let text = write_classes(alloc, list)?;
    Ok(text)
}

/// The coflows of a table in their classes, with the cap of the classes and the schedule that serves the class order.
fn class_list(
    alloc: Global,
    table: &Table,
    weights: &[u64],
    classes: &Classes,
) -> Result<ClassText, NoMemory>
    requires count { length weights.now ≡ length table.now.ids }
    requires weights { All (λ w. w ≤ MAX_WEIGHT) weights.now }
    requires classes { length classes.now.numbers ≡ length table.now.ids }
    ensures list { IfOk result (λ list. IsListOf table.now weights.now classes.now list) }
    ensures table { OnOk result (IsTable table.now) }
{
    let cap = cap(alloc, table, weights, classes)?;
    let schedule = simulate(alloc, table, classes.class_order())?;
    let ends = completions(alloc, table.flows(), table.coflows(), &schedule)?;
    let cost = cost_of(weights, &ends);
    let members = members_of(alloc, table, classes)?;
    Ok(ClassText {
        members: Items::from_vec(members),
        cap,
        cost,
        runs: schedule.into_runs(),
    })
}

/// The members of classes, in the class order.
fn members_of(alloc: Global, table: &Table, classes: &Classes) -> Result<Vec<Member>, NoMemory>
    requires { length classes.now.numbers ≡ length table.now.ids }
    ensures { IfOk result (λ members. members.items ≡
        map (member_of (class_of classes.now) table.now.ids) classes.now.order) }
{
    let mut members = Vec::new(alloc);
    for coflow in classes.class_order() {
        members.push(Member {
            class_number: classes.class_of(*coflow),
            id: table.id(*coflow),
        })?;
    }
    Ok(members)
}
