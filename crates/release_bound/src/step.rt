//! The steps of the released certificate: which coflow takes the place, and what the coflows pay.
ghost use Rattle.std.specs.Prelude.{◌≡◌, ◌↔◌, ℕ, ◌*◌, ◌<◌, ◌≤◌, IsTrue, [], false, count_by, length, reverse, slice_index, slice_set};
ghost use Rattle.coflow_units.specs.declared.limits.TheConstants.{MAX_COFLOWS};
ghost use Rattle.coflow_units.specs.Flows.{Instance};
ghost use Rattle.port_load.specs.LoadTable.{DropsCoflow, IsSameSize, load_at};
ghost use Rattle.bssi_order.specs.Step.{IsReady, Pays, Stands};
ghost use Rattle.release_bound.specs.ReleaseOrder.{IsLate, IsReleasedBy, quarters_of};
ghost use Rattle.release_bound.specs.ReleaseStep.{IsLatestWaiting, IsReleaseChosen};

use crate::place::ReleasePlace;
use crate::threshold::Threshold;
use bssi_order::{choose, pay};
use port_load::Loads;

/// Fills the places from the last one on; each waiting coflow has one.
pub fn place_all(
    places: &mut [ReleasePlace],
    loads: &mut Loads,
    arrivals: &[u64],
    residuals: &mut [u128],
    waiting: &mut [bool],
    by: Threshold,
)
    requires ready { IsReady loads.old residuals.old waiting.old }
    requires arrivals_len { length arrivals.now ≡ loads.old.coflows }
    requires count { length places.old ≡ count_by (λ waits. waits) waiting.old }
    ensures order { (i : Instance) (arrival : ℕ → ℕ) → Stands i [] i.coflows loads.old residuals.old waiting.old →
        ((c : ℕ) → c < length arrivals.now → arrival c ≡ slice_index arrivals.now c) →
        IsReleasedBy by i arrival (reverse places.new) }
    ensures size { IsSameSize loads.old loads.new }
{
    for number in (0..places.len()).rev() {
        places[number] = next_place(loads, arrivals, residuals, waiting, by);
    }
}

/// The place before those that are there. Each coflow pays for it, and the one placed goes.
fn next_place(
    loads: &mut Loads,
    arrivals: &[u64],
    residuals: &mut [u128],
    waiting: &mut [bool],
    by: Threshold,
) -> ReleasePlace
    requires ready { IsReady loads.old residuals.old waiting.old }
    requires arrivals_len { length arrivals.now ≡ loads.old.coflows }
    requires some { 0 < count_by (λ waits. waits) waiting.old }
    ensures chosen { IsReleaseChosen (quarters_of by) loads.old arrivals.now residuals.old waiting.old result }
    ensures pays { Pays loads.old result.port result.y residuals.old residuals.new }
    ensures placed { waiting.new ≡ slice_set waiting.old result.coflow false }
    ensures dropped { DropsCoflow loads.old loads.new result.coflow }
{
    let place = choose_released(loads, arrivals, residuals, waiting, by);
    pay(residuals, loads, place.port, place.y);
    waiting[place.coflow as usize] = false;
    loads.drop_coflow(place.coflow);
    place
}

/// The coflow that arrives last takes the place where the threshold's part of the load of the port could be served
/// before it; there it pays for its earliest end alone. Otherwise the place is that of the ordering certificate.
fn choose_released(
    loads: &Loads,
    arrivals: &[u64],
    residuals: &[u128],
    waiting: &[bool],
    by: Threshold,
) -> ReleasePlace
    requires ready { IsReady loads.now residuals.now waiting.now }
    requires arrivals_len { length arrivals.now ≡ loads.now.coflows }
    requires some { 0 < count_by (λ waits. waits) waiting.now }
    ensures chosen { IsReleaseChosen (quarters_of by) loads.now arrivals.now residuals.now waiting.now result }
    ensures within { result.coflow < loads.now.coflows }
    ensures affordable { (coflow : ℕ) → coflow < loads.now.coflows →
        result.y * load_at loads.now coflow result.port ≤ slice_index residuals.now coflow }
{
    let early = choose(loads, residuals, waiting);
    let latest = latest_waiting(arrivals, waiting);
    if is_late(by, early.load, arrivals[latest as usize]) {
        return ReleasePlace {
            coflow: latest,
            port: early.port,
            y: 0,
            z: residuals[latest as usize],
        };
    }
    ReleasePlace {
        coflow: early.coflow,
        port: early.port,
        y: early.y,
        z: early.rest,
    }
}

/// There is no load, or so much of it as the threshold says could be served before the arrival.
fn is_late(by: Threshold, load: u64, arrival: u64) -> bool
    ensures { IsTrue result ↔ IsLate (quarters_of by) load arrival }
{
    let quarters = by.quarters();
    // a port without load pays nothing, also where nobody arrives late
    load == 0 || quarters == 0 || quarters * u128::from(load) < 4 * u128::from(arrival)
}

fn latest_waiting(arrivals: &[u64], waiting: &[bool]) -> u32
    requires some { 0 < count_by (λ waits. waits) waiting.now }
    requires arrivals_len { length arrivals.now ≡ length waiting.now }
    requires limit { length waiting.now ≤ MAX_COFLOWS }
    ensures { IsLatestWaiting waiting.now arrivals.now result }
{
    let mut latest = 0;
    let mut last = 0;
    for coflow in 0..waiting.len() {
        if !waiting[coflow] {
            continue;
        }
        if arrivals[coflow] >= last {
            latest = coflow as u32;
            last = arrivals[coflow];
        }
    }
    latest
}
