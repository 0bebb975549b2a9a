//! The bound that a certificate proves, and its slack.
ghost use Rattle.std.specs.Prelude.{◌≡◌, ℕ, ◌+◌, ◌*◌, ◌^◌, ◌<◌, ◌≤◌, All, List, length, reverse};
ghost use Rattle.coflow_units.specs.declared.limits.TheConstants.{MAX_UNITS, MAX_WEIGHT};
ghost use Rattle.std.specs.List.{slice_index_or};
ghost use Rattle.coflow_units.specs.declared.fabric.Flow.{Flow};
ghost use Rattle.coflow_units.specs.declared.fabric.Port.{Port};
ghost use Rattle.coflow_units.specs.Certificate.{bound, front, front_load, slack};
ghost use Rattle.coflow_units.specs.Load.{squares_of_loads};
ghost use Rattle.port_load.specs.LoadTable.{total_at};
ghost use Rattle.dual_cert.specs.PlaceTable.{HasPlaces};
ghost use Rattle.dual_cert.specs.TableCertificate.{HasLoadsOf, HasWeightsOf, IsCertificateOf, StaysInBudget, all_entries, entries_to, port_at};

use crate::budgets::payments;
use crate::cert::{Cert, Charge};
use crate::fronts::{load_in_front, places_of};
use coflow_units::{MAX_COFLOWS, SCALE};
use port_load::Loads;

/// The lower bound that a feasible certificate proves on the cost of every schedule: half the sum over the places of y
/// times the square of the load of the front on the port, together with the squares of its coflows' loads there, in
/// parts of 2^40 and rounded up.
///
/// Source: Mastrolilli, Queyranne, Schulz, Svensson and Uhan, "Minimizing the sum of weighted completion times in a
/// concurrent open shop", Operations Research Letters 2010.
pub fn bound(loads: &Loads, cert: &Cert) -> u128
    requires totals_fit { (port : Port) → port.number < loads.now.ports → total_at loads.now port ≤ MAX_UNITS }
    requires certificate { IsCertificateOf loads.now (reverse cert.now) }
    requires feasible { (weights : List ℕ) × All (λ w. w ≤ MAX_WEIGHT) weights ×
        StaysInBudget loads.now weights (reverse cert.now) }
    ensures { (flows : List Flow) → HasLoadsOf flows loads.now (reverse cert.now) →
        result ≡ bound flows (reverse cert.now) }
{
    // with at most 4096 coflows the sum is at most 2^125
    prove!(loads.coflows() <= MAX_COFLOWS);
    let charges = cert.charges();
    let places = places_of(loads, charges);
    let mut value = 0;
    for place in 0..charges.len() {
        value += charges[place].y * squares(loads, charges, &places, place);
    }
    value.div_ceil(2 * SCALE)
}

/// What the factor of four lacks at most: twice the sum over the places of what the coflow keeps of its budget times
/// the load of the front on the port, in parts of 2^40 and rounded up.
pub fn slack(loads: &Loads, weights: &[u64], cert: &Cert) -> u128
    requires weights_len { length weights.now ≡ loads.now.coflows }
    requires weights_fit { All (λ w. w ≤ MAX_WEIGHT) weights.now }
    requires totals_fit { (port : Port) → port.number < loads.now.ports → total_at loads.now port ≤ MAX_UNITS }
    requires certificate { IsCertificateOf loads.now (reverse cert.now) }
    requires feasible { StaysInBudget loads.now weights.now (reverse cert.now) }
    ensures { (flows : List Flow) (weight : ℕ → ℕ) → HasLoadsOf flows loads.now (reverse cert.now) →
        HasWeightsOf weight weights.now (reverse cert.now) →
        result ≡ slack flows weight (reverse cert.now) }
{
    // with at most 4096 coflows the sum is at most 2^124
    prove!(loads.coflows() <= MAX_COFLOWS);
    let charges = cert.charges();
    let places = places_of(loads, charges);
    let paid = payments(loads, charges, &places);
    let mut unspent = 0;
    for place in 0..charges.len() {
        let coflow = charges[place].coflow as usize;
        let rest = weights[coflow] as u128 * SCALE - paid[coflow];
        unspent += rest * total(loads, charges, &places, place) as u128;
    }
    (2 * unspent).div_ceil(SCALE)
}

/// The load of a place's port over its front. Places count from 0.
pub fn total(loads: &Loads, charges: &[Charge], places: &[usize], place: usize) -> u64
    requires places { HasPlaces charges.now places.now }
    requires totals_fit { (port : Port) → port.number < loads.now.ports → total_at loads.now port ≤ MAX_UNITS }
    requires place_in { place < length charges.now }
    requires certificate { IsCertificateOf loads.now (all_entries charges.now) }
    ensures load { (flows : List Flow) → HasLoadsOf flows loads.now (all_entries charges.now) →
        result ≡ front_load flows (entries_to (place + 1) charges.now) }
    ensures fits { result ≤ MAX_UNITS }
{
    let port = charges[place].port;
    let coflows = loads.coflows();
    let mut total = 0;
    let mut coflow = loads.next_loaded(port, 0);
    'loaded: while coflow < coflows {
        total += load_in_front(loads, charges, places, place, coflow);
        coflow = loads.next_loaded(port, coflow + 1);
    }
    total
}

/// The square of the load of a place's port over its front, and the squares of its coflows' loads there. Places count
/// from 0.
pub fn squares(loads: &Loads, charges: &[Charge], places: &[usize], place: usize) -> u128
    requires places { HasPlaces charges.now places.now }
    requires totals_fit { (port : Port) → port.number < loads.now.ports → total_at loads.now port ≤ MAX_UNITS }
    requires place_in { place < length charges.now }
    requires certificate { IsCertificateOf loads.now (all_entries charges.now) }
    ensures value { (flows : List Flow) → HasLoadsOf flows loads.now (all_entries charges.now) →
        result ≡ front_load flows (entries_to (place + 1) charges.now) * front_load flows
        (entries_to (place + 1) charges.now) +
        squares_of_loads flows (front (entries_to (place + 1) charges.now)) (port_at charges.now place) }
    ensures fits { result ≤ 2 * (MAX_UNITS * MAX_UNITS) }
{
    let port = charges[place].port;
    let coflows = loads.coflows();
    let mut total = 0;
    let mut squares = 0;
    let mut coflow = loads.next_loaded(port, 0);
    'loaded: while coflow < coflows {
        let load = load_in_front(loads, charges, places, place, coflow) as u128;
        total += load;
        squares += load * load;
        coflow = loads.next_loaded(port, coflow + 1);
    }
    total * total + squares
}
