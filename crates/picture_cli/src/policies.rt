//! The picture of policies side by side.
ghost use Rattle.std.specs.Prelude.{◌≡◌, ◌≢◌, ◌≤◌, All, IfErr, IfOk, OnOk, [], length};
ghost use Rattle.coflow_units.specs.declared.limits.TheConstants.{MAX_COFLOWS, MAX_WEIGHT};
ghost use Rattle.flow_table.specs.Table.{IsTable, instance_of};
ghost use Rattle.picture.specs.Policies.{IsPoliciesDrawable, IsReady};
ghost use Rattle.rankers.specs.Ends.{AreSecondEnds};
ghost use Rattle.rankers.specs.FactsTold.{FactsTold, IsFacts, IsFactsOf, coflows_in};
ghost use Rattle.picture_cli.specs.Policies.{AreShown, ArePolicies, DrawsPolicies, HasEnds, HasNoPolicies, IsShown, ShowsPolicies, coflows_with_units, rankers_for};

use crate::status::PictureStatus;
use coflow_units::NoMemory;
use command_files::Input;
use flow_table::Table;
use picture::{PoliciesPicture, Policy, policies_picture_of, policy_of, write_policies};
use plans::bound_of;
use rankers::{Attained, Bssi0, Came, Ended, Facts, Fifo, Ranker, Sebf, Wsebf, second_ends};
use schedule_model::cost_of;
use std::alloc::Global;

/// The text of the picture of policies on a table. The error is `NoSlots` where no coflow has units, and want of memory.
pub(crate) fn policies_of(alloc: Global, input: &Input) -> Result<Vec<u8>, PictureStatus>
    requires count { length input.now.weights ≡ length input.now.table.ids }
    requires weights { All (λ w. w ≤ MAX_WEIGHT) input.now.weights }
    ensures some { OnOk result (input.now.table.flows ≢ []) }
    ensures drawn { IfOk result (λ text. DrawsPolicies input.now.table input.now.weights text.items) }
    ensures cause { IfErr result (HasNoPolicies input.now.table) }
{
    let table = &input.table;
    if table.flows().is_empty() {
        return Err(PictureStatus::NoSlots { first: 1, last: 0 });
    }
    let picture = picture_in(alloc, table, input.weights.as_slice())?;
    let text = write_policies(alloc, &picture)?;
    Ok(text)
}

/// The picture of policies on a table that has a flow.
fn picture_in(alloc: Global, table: &Table, weights: &[u64]) -> Result<PoliciesPicture, NoMemory>
    requires table { IsTable table.now }
    requires count { length weights.now ≡ length table.now.ids }
    requires weights { All (λ w. w ≤ MAX_WEIGHT) weights.now }
    requires some { table.now.flows ≢ [] }
    ensures shows { IfOk result (ShowsPolicies table.now weights.now) }
    ensures drawable { IfOk result IsPoliciesDrawable }
{
    let bound = bound_of(alloc, table, weights)?;
    let policies = policies_in(alloc, table, weights)?;
    let coflows = u64::from(policies[0].times.count);
    Ok(policies_picture_of(policies, coflows, bound))
}

/// The policies on a table that has a flow: each is what came of a ranker's second round.
fn policies_in(alloc: Global, table: &Table, weights: &[u64]) -> Result<Vec<Policy>, NoMemory>
    requires table { IsTable table.now }
    requires count { length weights.now ≡ length table.now.ids }
    requires weights { All (λ w. w ≤ MAX_WEIGHT) weights.now }
    requires some { table.now.flows ≢ [] }
    ensures policies { IfOk result (λ policies. (facts : FactsTold) × IsFacts facts ×
        IsFactsOf table.now weights.now facts ×
        ArePolicies (instance_of table.now weights.now) facts (rankers_for (length table.now.ids)) policies.items) }
    ensures ready { IfOk result (λ policies. All (IsReady (coflows_with_units table.now)) policies.items) }
    ensures five { IfOk result (λ policies. length policies.items ≡ 5) }
{
    let facts = Facts::of(alloc, table, weights)?;
    let rows = ends_of(alloc, table, &facts)?;
    drop(facts);
    policies_by(alloc, weights, rows)
}

/// What came of the second round of each policy.
fn ends_of(alloc: Global, table: &Table, facts: &Facts) -> Result<Vec<Ended>, NoMemory>
    requires { coflows_in facts.now ≡ length table.now.ids }
    ensures ends { IfOk result (λ rows. AreSecondEnds (instance_of table.now facts.now.weights) facts.now
        (rankers_for (length table.now.ids)) rows.items) }
    ensures fit { IsFacts facts.now }
{
    let attained = Attained::new(alloc, facts.coflows())?;
    let mut bench: Vec<Box<dyn Ranker>> = Vec::new(alloc);
    bench.push(Box::new(alloc, Bssi0)?)?;
    bench.push(Box::new(alloc, Wsebf)?)?;
    bench.push(Box::new(alloc, Sebf)?)?;
    bench.push(Box::new(alloc, Fifo)?)?;
    bench.push(Box::new(alloc, attained)?)?;
    second_ends(alloc, table, facts, bench)
}

/// The policies of rows that have the slots of all coflows.
fn policies_by(alloc: Global, weights: &[u64], rows: Vec<Ended>) -> Result<Vec<Policy>, NoMemory>
    requires few { length weights.now ≤ MAX_COFLOWS }
    requires weights { All (λ w. w ≤ MAX_WEIGHT) weights.now }
    requires each { All (HasEnds (length weights.now)) rows.items }
    ensures { IfOk result (λ policies. AreShown weights.now rows.items policies.items) }
{
    let mut policies = Vec::new(alloc);
    for row in rows {
        policies.push(policy_by(alloc, weights, row)?)?;
    }
    Ok(policies)
}

/// The policy of a row that has the slots of all coflows.
fn policy_by(alloc: Global, weights: &[u64], row: Ended) -> Result<Policy, NoMemory>
    requires few { length weights.now ≤ MAX_COFLOWS }
    requires weights { All (λ w. w ≤ MAX_WEIGHT) weights.now }
    requires ends { HasEnds (length weights.now) row }
    ensures { IfOk result (IsShown weights.now row) }
{
    let Ended { name, came } = row;
    match came {
        Came::Ends(ends) => {
            let ends = ends.as_slice();
            policy_of(alloc, name, cost_of(weights, ends), ends)
        }
        Came::Unfit(_) => unreachable!(),
    }
}
