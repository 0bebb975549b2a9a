//! The cap of classes.
ghost use Rattle.std.specs.Prelude.{◌≡◌, ℕ, ◌*◌, ◌<◌, ◌≤◌, All, IfOk, length, sum_by};
ghost use Rattle.std.specs.List.{range_with_len, slice_index_or};
ghost use Rattle.coflow_units.specs.declared.limits.TheConstants.{MAX_COFLOWS, MAX_UNITS};
ghost use Rattle.coflow_units.specs.declared.fabric.Flow.{Flow};
ghost use Rattle.coflow_units.specs.declared.fabric.Port.{Port};
ghost use Rattle.coflow_units.specs.declared.fabric.Side.TheVariants.{Egress, Ingress};
ghost use Rattle.coflow_units.specs.Flows.{end_at};
ghost use Rattle.schedule_model.specs.Weights.{weight_of};
ghost use Rattle.class_rates.specs.Cap.{cap, cap_of_coflow};
ghost use Rattle.class_rates.specs.Classes.{class_of};
ghost use Rattle.class_rates.specs.Tallies.{HasCapsBelow, HasCapsUpTo, HasLoadsBelow, HasLoadsUpTo, coflows_of, number_at};
ghost use Rattle.class_rates.specs.declared.classes.TheConstants.{MAX_CLASSES};

use crate::classes::Classes;
use coflow_units::{Flow, NoMemory, Side};
use flow_table::Table;
use std::alloc::Global;

/// What a schedule of the table's flows costs at most, where it keeps the classes and leaves no port idle that could
/// serve.
///
/// A flow ends no later than its cap: the loads, in units, of its two ports over all coflows of its class and of those
/// before it, less its own units. A coflow has the greatest cap of its flows. The answer is the sum of weight times
/// cap, with one weight and one class for each coflow of the table. The error is want of memory.
pub fn cap(
    alloc: Global,
    table: &Table,
    weights: &[u64],
    classes: &Classes,
) -> Result<u128, NoMemory>
    requires weights { length weights.now ≡ length table.now.ids }
    requires classes { length classes.now.numbers ≡ length table.now.ids }
    ensures { IfOk result (λ total. total ≡
        cap table.now.flows (weight_of weights.now) (range_with_len 0 (length table.now.ids)) (class_of classes.now)) }
{
    let ports = table.ports() as usize;
    let mut ingress = vec![in alloc; 0u64; ports]?;
    let mut egress = vec![in alloc; 0u64; ports]?;
    let mut caps = vec![in alloc; 0u64; weights.len()]?;
    fill_caps(
        table.flows(),
        classes.numbers(),
        classes.count(),
        &mut ingress,
        &mut egress,
        &mut caps,
    );
    let total = weighted_sum(weights, &caps);
    Ok(total)
}

/// Writes the cap of each coflow, class by class. The loads of the ports of both sides are for its use; they and the
/// caps are 0 before.
fn fill_caps(
    flows: &[Flow],
    numbers: &[u32],
    classes: u32,
    ingress: &mut [u64],
    egress: &mut [u64],
    caps: &mut [u64],
)
    requires units { sum_by (λ (x : Flow). x.units) flows.now ≤ MAX_UNITS }
    requires coflow { All (λ (x : Flow). x.coflow < length numbers.now) flows.now }
    requires class { All (λ q. (1 ≤ q) × (q ≤ classes)) numbers.now }
    requires few { classes ≤ MAX_CLASSES }
    requires ingress_port { All (λ (x : Flow). x.ingress < length ingress.old) flows.now }
    requires egress_port { All (λ (x : Flow). x.egress < length egress.old) flows.now }
    requires length { length caps.old ≡ length numbers.now }
    requires ingress { All (λ n. n ≡ 0) ingress.old }
    requires egress { All (λ n. n ≡ 0) egress.old }
    requires caps { All (λ n. n ≡ 0) caps.old }
    ensures { (c : ℕ) → c < length numbers.now →
        slice_index_or caps.new c 0 ≡ cap_of_coflow flows.now (coflows_of numbers.now) (number_at numbers.now) c }
{
    for before in 0..classes {
        let class = before + 1;
        add_class(flows, numbers, class, Side::Ingress, ingress);
        add_class(flows, numbers, class, Side::Egress, egress);
        set_caps(flows, numbers, class, ingress, egress, caps);
    }
}

/// Adds the flows of a class to the loads of the ports of a side, by number: they had those of the classes before it.
fn add_class(flows: &[Flow], numbers: &[u32], class: u32, side: Side, loads: &mut [u64])
    requires units { sum_by (λ (x : Flow). x.units) flows.now ≤ MAX_UNITS }
    requires coflow { All (λ (x : Flow). x.coflow < length numbers.now) flows.now }
    requires port { All (λ (x : Flow). end_at side x < length loads.old) flows.now }
    requires loads { HasLoadsBelow flows.now numbers.now class side loads.old }
    ensures { HasLoadsUpTo flows.now numbers.now class side loads.new }
{
    for flow in flows {
        if numbers[flow.coflow as usize] == class {
            loads[port_at(side, flow) as usize] += flow.units;
        }
    }
}

/// The number of the port that the flow uses on the side.
fn port_at(side: Side, flow: &Flow) -> u32
    ensures { result ≡ end_at side flow.now }
{
    match side {
        Side::Ingress => flow.ingress,
        Side::Egress => flow.egress,
    }
}

/// Sets the caps of the coflows of a class, which were 0, by the loads of the classes up to it.
fn set_caps(
    flows: &[Flow],
    numbers: &[u32],
    class: u32,
    ingress: &[u64],
    egress: &[u64],
    caps: &mut [u64],
)
    requires units { sum_by (λ (x : Flow). x.units) flows.now ≤ MAX_UNITS }
    requires coflow { All (λ (x : Flow). x.coflow < length numbers.now) flows.now }
    requires ingress_port { All (λ (x : Flow). x.ingress < length ingress.now) flows.now }
    requires egress_port { All (λ (x : Flow). x.egress < length egress.now) flows.now }
    requires ingress { HasLoadsUpTo flows.now numbers.now class Ingress ingress.now }
    requires egress { HasLoadsUpTo flows.now numbers.now class Egress egress.now }
    requires length { length caps.old ≡ length numbers.now }
    requires caps { HasCapsBelow flows.now numbers.now class caps.old }
    ensures { HasCapsUpTo flows.now numbers.now class caps.new }
{
    for flow in flows {
        let coflow = flow.coflow as usize;
        if numbers[coflow] != class {
            continue;
        }
        let loads = ingress[flow.ingress as usize] + egress[flow.egress as usize];
        caps[coflow] = caps[coflow].max(loads - flow.units);
    }
}

/// The sum of weight times cap, in units times weight; each cap is at most 2^41.
fn weighted_sum(weights: &[u64], caps: &[u64]) -> u128
    requires length { length weights.now ≡ length caps.now }
    requires few { length weights.now ≤ MAX_COFLOWS }
    requires small { All (λ n. n ≤ 2 * MAX_UNITS) caps.now }
    ensures { result ≡ sum_by (λ c. weight_of weights.now c * slice_index_or caps.now c 0)
        (range_with_len 0 (length weights.now)) }
{
    let mut total: u128 = 0;
    for coflow in 0..weights.len() {
        total += u128::from(weights[coflow]) * u128::from(caps[coflow]);
    }
    total
}
