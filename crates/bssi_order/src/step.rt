//! The steps of the order: the port with the greatest load, the coflow whose budget is used up first there, and what
//! each coflow pays.
ghost use Rattle.std.specs.Prelude.{◌≡◌, ◌≢◌, ℕ, ◌+◌, ◌-◌, ◌*◌, ◌/◌, ◌^◌, ◌<◌, ◌≤◌, ◌⊎◌, true, false, List, [], Contains, count_by, length, slice_index, slice_set};
ghost use Rattle.coflow_units.specs.declared.limits.TheConstants.{MAX_COFLOWS, MAX_UNITS};
ghost use Rattle.coflow_units.specs.declared.fabric.Port.{Port};
ghost use Rattle.coflow_units.specs.Flows.{Instance};
ghost use Rattle.port_load.specs.LoadTable.{DropsCoflow, IsSameSize, is_present, load_at, total_at};
ghost use Rattle.bssi_order.specs.Order.{IsOrder};
ghost use Rattle.coflow_units.specs.declared.fabric.Side.TheVariants.{Egress, Ingress};
ghost use Rattle.bssi_order.specs.Bounds.{IsBounded};
ghost use Rattle.bssi_order.specs.Step.{IsChosen, IsGreatestPort, IsGreatestWaiting, IsLeastRatio, IsReady, Pays, Stands};

use crate::greatest::{BLOCKS, greatest_port};
use coflow_units::{Place, Port};
use port_load::Loads;

/// Fills the places from the last one on; each waiting coflow has one.
pub fn place_all(
    places: &mut [Place],
    loads: &mut Loads,
    residuals: &mut [u128],
    waiting: &mut [bool],
)
    requires ready { IsReady loads.old residuals.old waiting.old }
    requires count { length places.old ≡ count_by (λ waits. waits) waiting.old }
    ensures order { (i : Instance) → Stands i [] i.coflows loads.old residuals.old waiting.old → IsOrder i places.new }
    ensures size { IsSameSize loads.old loads.new }
{
    let mut ingress = [u64::MAX; BLOCKS];
    let mut egress = [u64::MAX; BLOCKS];
    for number in (0..places.len()).rev() {
        places[number] = next_place(loads, residuals, waiting, &mut ingress, &mut egress);
    }
}

/// The place before those that are there. Each coflow pays for it, and the one placed goes. The bounds are those of the
/// loads of the two sides.
fn next_place(
    loads: &mut Loads,
    residuals: &mut [u128],
    waiting: &mut [bool],
    ingress: &mut [u64],
    egress: &mut [u64],
) -> Place
    requires ready { IsReady loads.old residuals.old waiting.old }
    requires some { 0 < count_by (λ waits. waits) waiting.old }
    requires ingress_len { length ingress.old ≡ BLOCKS }
    requires egress_len { length egress.old ≡ BLOCKS }
    requires ingress_bounded { IsBounded loads.old Ingress ingress.old }
    requires egress_bounded { IsBounded loads.old Egress egress.old }
    ensures ingress_bounded { IsBounded loads.new Ingress ingress.new }
    ensures egress_bounded { IsBounded loads.new Egress egress.new }
    ensures chosen { IsChosen loads.old residuals.old waiting.old result }
    ensures pays { Pays loads.old result.port result.y residuals.old residuals.new }
    ensures placed { waiting.new ≡ slice_set waiting.old result.coflow false }
    ensures dropped { DropsCoflow loads.old loads.new result.coflow }
{
    let port = greatest_port(loads, ingress, egress);
    let place = choose_at(loads, residuals, waiting, port);
    pay(residuals, loads, place.port, place.y);
    waiting[place.coflow as usize] = false;
    loads.drop_coflow(place.coflow);
    place
}

/// The place that comes before those that are there: the first port with the greatest load, and there the coflow whose
/// residual is used up first, with what it pays for each unit of load and what it keeps. Where nobody has load, the
/// greatest number takes the place and pays nothing. The loads are those of the coflows that wait, with one residual
/// and one mark for each coflow; some coflow waits.
pub fn choose(loads: &Loads, residuals: &[u128], waiting: &[bool]) -> Place
    requires ready { IsReady loads.now residuals.now waiting.now }
    requires some { 0 < count_by (λ waits. waits) waiting.now }
    ensures chosen { IsChosen loads.now residuals.now waiting.now result }
    ensures within { result.coflow < loads.now.coflows }
    ensures affordable { (coflow : ℕ) → coflow < loads.now.coflows →
        result.y * load_at loads.now coflow result.port ≤ slice_index residuals.now coflow }
{
    let mut ingress = [u64::MAX; BLOCKS];
    let mut egress = [u64::MAX; BLOCKS];
    let port = greatest_port(loads, &mut ingress, &mut egress);
    let place = choose_at(loads, residuals, waiting, port);
    place
}

/// The place that comes before those that are there, where the port is the first one with the greatest load.
fn choose_at(loads: &Loads, residuals: &[u128], waiting: &[bool], port: Port) -> Place
    requires ready { IsReady loads.now residuals.now waiting.now }
    requires some { 0 < count_by (λ waits. waits) waiting.now }
    requires port { IsGreatestPort loads.now port }
    ensures chosen { IsChosen loads.now residuals.now waiting.now result }
    ensures within { result.coflow < loads.now.coflows }
    ensures affordable { (coflow : ℕ) → coflow < loads.now.coflows →
        result.y * load_at loads.now coflow result.port ≤ slice_index residuals.now coflow }
{
    let load = loads.total(port);
    if load == 0 {
        let coflow = greatest_waiting(waiting);
        return Place {
            coflow,
            port,
            y: 0,
            rest: residuals[coflow as usize],
            load,
        };
    }
    let coflow = least_ratio(loads, residuals, port);
    let own = loads.get(coflow, port) as u128;
    let residual = residuals[coflow as usize];
    let y = residual / own;
    Place {
        coflow,
        port,
        y,
        rest: residual - y * own,
        load,
    }
}

fn greatest_waiting(waiting: &[bool]) -> u32
    requires some { 0 < count_by (λ waits. waits) waiting.now }
    requires limit { length waiting.now ≤ MAX_COFLOWS }
    ensures { IsGreatestWaiting waiting.now result }
{
    let mut greatest = 0;
    for coflow in 0..waiting.len() {
        if waiting[coflow] {
            greatest = coflow as u32;
        }
    }
    greatest
}

/// The coflow with load on the port whose ratio of residual to load is least. Ratios are compared by products, which
/// stay below 2^113.
fn least_ratio(loads: &Loads, residuals: &[u128], port: Port) -> u32
    requires residuals_len { length residuals.now ≡ loads.now.coflows }
    requires residuals_fit { (coflow : ℕ) → coflow < loads.now.coflows → slice_index residuals.now coflow ≤ 2 ^ 72 }
    requires port_in { port.number < loads.now.ports }
    requires total_fits { total_at loads.now port ≤ MAX_UNITS }
    requires some { 0 < total_at loads.now port }
    ensures { IsLeastRatio loads.now residuals.now port result }
{
    let coflows = loads.coflows();
    let mut least = 0;
    let mut least_load = 0;
    let mut coflow = loads.next_loaded(port, 0);
    'loaded: while coflow < coflows {
        let load = loads.get(coflow, port);
        // a load of 0 stands for none so far: then the first product is 0
        let ours = residuals[coflow as usize] * least_load as u128;
        let theirs = residuals[least as usize] * load as u128;
        if ours <= theirs {
            least = coflow;
            least_load = load;
        }
        coflow = loads.next_loaded(port, coflow + 1);
    }
    least
}

/// Each coflow pays y for each unit of its load on the port; none has less left than that. There is one residual for
/// each coflow.
pub fn pay(residuals: &mut [u128], loads: &Loads, port: Port, y: u128)
    requires residuals_len { length residuals.old ≡ loads.now.coflows }
    requires port_in { port.number < loads.now.ports }
    requires affordable { (coflow : ℕ) → coflow < loads.now.coflows →
        y * load_at loads.now coflow port ≤ slice_index residuals.old coflow }
    ensures { Pays loads.now port y residuals.old residuals.new }
{
    if y == 0 {
        return;
    }
    let coflows = loads.coflows();
    let mut coflow = loads.next_loaded(port, 0);
    'loaded: while coflow < coflows {
        residuals[coflow as usize] -= y * loads.get(coflow, port) as u128;
        coflow = loads.next_loaded(port, coflow + 1);
    }
}
