//! What the picture of policies shows.
ghost use Rattle.std.specs.Prelude.{◌≡◌, ◌≢◌, ◌<◌, ◌≤◌, ◌^◌, All, AllPairs, IfOk, [], filter, length, ltb, map};
ghost use Rattle.coflow_units.specs.declared.limits.TheConstants.{MAX_COFLOWS, MAX_SLOT};
ghost use Rattle.picture.specs.declared.policies_value.Policy.{Policy};
ghost use Rattle.picture.specs.declared.policies_value.TheConstants.{MAX_POLICIES};
ghost use Rattle.picture.specs.declared.value.Step.{Step};
ghost use Rattle.picture.specs.Policies.{IsGreatestOf, IsPoliciesDrawable, IsPoliciesOf, IsPolicyOf, IsReady, costs_of, served_ends, step_slots};

use crate::curve::curve_of;
use crate::policies_value::{PoliciesPicture, Policy};
use crate::value::Step;
use coflow_stats::summary_of;
use coflow_units::{Items, NoMemory};
use std::alloc::Global;

/// The policy of a name whose schedule has this cost and completes the coflows in these slots, by number; a coflow
/// without units has 0. There are at most 4096 coflows. The error is want of memory.
pub fn policy_of(
    alloc: Global,
    name: Items<u8>,
    cost: u128,
    ends: &[u64],
) -> Result<Policy, NoMemory>
    requires few { length ends.now ≤ MAX_COFLOWS }
    requires short { All (λ end. end ≤ MAX_SLOT) ends.now }
    requires some { served_ends ends.now ≢ [] }
    ensures policy { IfOk result (IsPolicyOf name cost ends.now) }
    ensures ready { IfOk result (IsReady (length (served_ends ends.now))) }
{
    let served = served_ends(alloc, ends)?;
    let steps = curve_of(alloc, &served)?;
    let times = summary_of(alloc, &served)?;
    Ok(Policy {
        name,
        cost,
        steps: Items::from_vec(steps),
        times,
    })
}

/// The slots of the coflows that have units.
fn served_ends(alloc: Global, ends: &[u64]) -> Result<Vec<u64>, NoMemory>
    ensures { IfOk result (λ served. served.items ≡ served_ends ends.now) }
{
    let mut served = Vec::new(alloc);
    for end in ends {
        if *end > 0 {
            served.push(*end)?;
        }
    }
    Ok(served)
}

/// The picture of policies on so many coflows that have units. There is a policy, and there are at most five; none
/// costs less than the bound.
pub fn policies_picture_of(policies: Vec<Policy>, coflows: u64, bound: u128) -> PoliciesPicture
    requires some { policies.items ≢ [] }
    requires few { length policies.items ≤ MAX_POLICIES }
    requires coflows { 1 ≤ coflows }
    requires few_coflows { coflows ≤ MAX_COFLOWS }
    requires ready { All (IsReady coflows) policies.items }
    requires above { All (λ (x : Policy). bound ≤ x.cost) policies.items }
    requires small { All (λ (x : Policy). x.cost ≤ 2 ^ 96) policies.items }
    ensures shows { IsPoliciesOf policies.items coflows bound result }
    ensures drawable { IsPoliciesDrawable result }
{
    let most = most_of(&policies);
    let last = last_of(&policies);
    PoliciesPicture {
        coflows,
        bound,
        most,
        last,
        policies: Items::from_vec(policies),
    }
}

/// The greatest cost of policies.
fn most_of(policies: &[Policy]) -> u128
    requires { policies.now ≢ [] }
    ensures { IsGreatestOf (costs_of policies.now) result }
{
    let mut most = 0;
    for policy in policies {
        most = policy.cost.max(most);
    }
    most
}

/// The last slot in which one of the policies completes a coflow. There is a policy, and each completes one.
fn last_of(policies: &[Policy]) -> u64
    requires some { policies.now ≢ [] }
    requires each { All (λ (x : Policy). x.steps ≢ []) policies.now }
    requires ascending { All (λ (x : Policy). AllPairs
        (λ (a : Step) (b : Step). a.slot < b.slot) x.steps) policies.now }
    ensures { IsGreatestOf (step_slots policies.now) result }
{
    let mut last = 0;
    for policy in policies {
        last = last_in(policy.steps.as_slice()).max(last);
    }
    last
}

/// The last slot of steps.
fn last_in(steps: &[Step]) -> u64
    requires some { steps.now ≢ [] }
    requires ascending { AllPairs (λ (a : Step) (b : Step). a.slot < b.slot) steps.now }
    ensures { IsGreatestOf (map (λ (s : Step). s.slot) steps.now) result }
{
    match steps.last() {
        Some(step) => step.slot,
        None => 0,
    }
}
