//! Whether a released certificate is feasible, and the lower bound that it proves.
ghost use Rattle.std.specs.Prelude.{◌≡◌, ℕ, ◌+◌, ◌*◌, ◌<◌, ◌≤◌, List, All, None, Some, IfSome, length, map, reverse, slice_index, take};
ghost use Rattle.coflow_units.specs.declared.limits.TheConstants.{MAX_ARRIVAL, MAX_UNITS, MAX_WEIGHT};
ghost use Rattle.coflow_units.specs.declared.fabric.Flow.{Flow};
ghost use Rattle.coflow_units.specs.declared.fabric.Port.{Port};
ghost use Rattle.coflow_units.specs.Certificate.{front};
ghost use Rattle.coflow_units.specs.Load.{load};
ghost use Rattle.port_load.specs.LoadTable.{load_at, total_at};
ghost use Rattle.dual_cert.specs.PlaceTable.{HasPlaces};
ghost use Rattle.dual_cert.specs.TableCertificate.{HasLoadsOf, HasWeightsOf, IsCertificateOf, all_entries, entries_to, port_at};
ghost use Rattle.release_bound.specs.Release.{IsReleasedFeasible, earliest_end, entries_of, first_arrival, front_value, released_total};
ghost use Rattle.release_bound.specs.ReleaseTable.{HasArrivalsOf, IsLeastReleasedInfeasible, StaysInReleasedBudget, charge_of, lesser_of};

use crate::place::ReleasePlace;
use coflow_units::{MAX_COFLOWS, Port, SCALE, Side};
use dual_cert::{COFLOWS, Charge, load_in_front, payments, places_of, squares, total};
use port_load::{Loads, bottleneck};

/// The least coflow whose z, together with what it pays for load, is more than its budget of weight times 2^40, with
/// one weight for each coflow of the loads. The places stand from place 1 on; each y and z may be any number of 128
/// bits.
pub fn released_infeasible(loads: &Loads, weights: &[u64], places: &[ReleasePlace]) -> Option<u32>
    requires weights_len { length weights.now ≡ loads.now.coflows }
    requires certificate { IsCertificateOf loads.now (entries_of (reverse places.now)) }
    ensures none { (flows : List Flow) (weight : ℕ → ℕ) → HasLoadsOf flows loads.now (entries_of (reverse places.now)) →
        HasWeightsOf weight weights.now (entries_of (reverse places.now)) →
        result ≡ None → IsReleasedFeasible flows weight (reverse places.now) }
    ensures least { (flows : List Flow) (weight : ℕ → ℕ) →
        HasLoadsOf flows loads.now (entries_of (reverse places.now)) →
        HasWeightsOf weight weights.now (entries_of (reverse places.now)) →
        IfSome result (λ coflow. IsLeastReleasedInfeasible flows weight (reverse places.now) coflow) }
    ensures within { IfSome result (λ coflow. coflow < loads.now.coflows) }
{
    let charges = charges_of(loads, places);
    let charges = &charges[..places.len()];
    let paid = payments(loads, charges, &places_of(loads, charges));
    let mut least = None;
    for place in places {
        let pays = paid[place.coflow as usize].saturating_add(place.z);
        if pays > weights[place.coflow as usize] as u128 * SCALE {
            least = lesser(least, place.coflow);
        }
    }
    least
}

fn lesser(least: Option<u32>, coflow: u32) -> Option<u32>
    ensures { result ≡ Some (lesser_of least coflow) }
{
    match least {
        Some(other) => Some(other.min(coflow)),
        None => Some(coflow),
    }
}

fn sooner(first: Option<u64>, arrival: u64) -> Option<u64>
    ensures { result ≡ Some (lesser_of first arrival) }
{
    match first {
        Some(other) => Some(other.min(arrival)),
        None => Some(arrival),
    }
}

/// The lower bound that a feasible released certificate proves on the cost of every schedule that serves nobody before
/// its arrival: half the sum over the places of y times the value of the front on the port, and z times the earliest
/// end of the coflow, in parts of 2^40 and rounded up. There is one arrival for each coflow of the loads, a time in
/// slots of at most 2^32, and one weight of at most 2^32, for which the places, from place 1 on, are feasible.
pub fn released_total(
    loads: &Loads,
    arrivals: &[u64],
    weights: &[u64],
    places: &[ReleasePlace],
) -> u128
    requires arrivals_len { length arrivals.now ≡ loads.now.coflows }
    requires arrivals_fit { All (λ a. a ≤ MAX_ARRIVAL + 1) arrivals.now }
    requires weights_fit { All (λ w. w ≤ MAX_WEIGHT) weights.now }
    requires totals_fit { (port : Port) → port.number < loads.now.ports → total_at loads.now port ≤ MAX_UNITS }
    requires certificate { IsCertificateOf loads.now (entries_of (reverse places.now)) }
    requires feasible { StaysInReleasedBudget loads.now weights.now (reverse places.now) }
    ensures { (flows : List Flow) (arrival : ℕ → ℕ) → HasLoadsOf flows loads.now (entries_of (reverse places.now)) →
        HasArrivalsOf arrival arrivals.now (entries_of (reverse places.now)) →
        result ≡ released_total flows arrival loads.now.ports (reverse places.now) }
{
    // with at most 4096 coflows the sum is at most 2^125 + 2^117
    prove!(loads.coflows() <= MAX_COFLOWS);
    let charges = charges_of(loads, places);
    let charges = &charges[..places.len()];
    let stands = places_of(loads, charges);
    let mut value = 0;
    for place in 0..places.len() {
        let ReleasePlace { coflow, y, z, .. } = places[place];
        let front = front_value(loads, arrivals, charges, &stands, place);
        let end = earliest_end(loads, arrivals, coflow) as u128;
        value += y * front + 2 * (z * end);
    }
    value.div_ceil(2 * SCALE)
}

/// What each unit of y adds at a place: the square of its front's load on its port, the squares of the loads of the
/// front's coflows, and twice the first arrival times the front's load. Places count from 0.
fn front_value(
    loads: &Loads,
    arrivals: &[u64],
    charges: &[Charge],
    stands: &[usize],
    place: usize,
) -> u128
    requires stands { HasPlaces charges.now stands.now }
    requires place_in { place < length charges.now }
    requires arrivals_len { length arrivals.now ≡ loads.now.coflows }
    requires arrivals_fit { All (λ a. a ≤ MAX_ARRIVAL + 1) arrivals.now }
    requires totals_fit { (port : Port) → port.number < loads.now.ports → total_at loads.now port ≤ MAX_UNITS }
    requires certificate { IsCertificateOf loads.now (all_entries charges.now) }
    ensures { (flows : List Flow) (arrival : ℕ → ℕ) → HasLoadsOf flows loads.now (all_entries charges.now) →
        HasArrivalsOf arrival arrivals.now (all_entries charges.now) →
        result ≡ front_value flows arrival (front (entries_to (place + 1) charges.now)) (port_at charges.now place) }
{
    let first = first_arrival(loads, arrivals, charges, stands, place) as u128;
    let load = total(loads, charges, stands, place) as u128;
    squares(loads, charges, stands, place) + 2 * (first * load)
}

/// The first arrival of the coflows of a place's front that have load on its port, or 0 where none has. Places count
/// from 0.
fn first_arrival(
    loads: &Loads,
    arrivals: &[u64],
    charges: &[Charge],
    stands: &[usize],
    place: usize,
) -> u64
    requires stands { HasPlaces charges.now stands.now }
    requires place_in { place < length charges.now }
    requires arrivals_len { length arrivals.now ≡ loads.now.coflows }
    requires arrivals_fit { All (λ a. a ≤ MAX_ARRIVAL + 1) arrivals.now }
    requires certificate { IsCertificateOf loads.now (all_entries charges.now) }
    ensures first { (flows : List Flow) (arrival : ℕ → ℕ) → HasLoadsOf flows loads.now (all_entries charges.now) →
        HasArrivalsOf arrival arrivals.now (all_entries charges.now) →
        result ≡ first_arrival flows arrival (front (entries_to (place + 1) charges.now)) (port_at charges.now place) }
    ensures fits { result ≤ MAX_ARRIVAL + 1 }
{
    let port = charges[place].port;
    let coflows = loads.coflows();
    let mut first = None;
    let mut coflow = loads.next_loaded(port, 0);
    'loaded: while coflow < coflows {
        if load_in_front(loads, charges, stands, place, coflow) > 0 {
            first = sooner(first, arrivals[coflow as usize]);
        }
        coflow = loads.next_loaded(port, coflow + 1);
    }
    first.unwrap_or(0)
}

/// The slot before which the coflow cannot end: its arrival and its greatest load, or 0 where it has no load.
fn earliest_end(loads: &Loads, arrivals: &[u64], coflow: u32) -> u64
    requires coflow_in { coflow < loads.now.coflows }
    requires arrivals_len { length arrivals.now ≡ loads.now.coflows }
    requires arrivals_fit { All (λ a. a ≤ MAX_ARRIVAL + 1) arrivals.now }
    requires totals_fit { (port : Port) → port.number < loads.now.ports → total_at loads.now port ≤ MAX_UNITS }
    ensures { (flows : List Flow) (arrival : ℕ → ℕ) →
        ((port : Port) → port.number < loads.now.ports → load_at loads.now coflow port ≡ load flows coflow port) →
        arrival coflow ≡ slice_index arrivals.now coflow →
        result ≡ earliest_end flows arrival loads.now.ports coflow }
{
    let load = bottleneck(loads, coflow);
    if load == 0 {
        return 0;
    }
    arrivals[coflow as usize] + load
}

/// What the places charge for load, and behind it charges that are not read.
fn charges_of(loads: &Loads, places: &[ReleasePlace]) -> [Charge; COFLOWS]
    requires { IsCertificateOf loads.now (entries_of (reverse places.now)) }
    ensures charges { take (length places.now) result ≡ map charge_of places.now }
    ensures within { length places.now ≤ MAX_COFLOWS }
    ensures coflows { loads.now.coflows ≤ MAX_COFLOWS }
{
    prove!(loads.coflows() <= MAX_COFLOWS);
    let no_charge = Charge {
        coflow: 0,
        port: Port {
            side: Side::Ingress,
            number: 0,
        },
        y: 0,
    };
    let mut charges = [no_charge; COFLOWS];
    for place in 0..places.len() {
        let ReleasePlace {
            coflow,
            port,
            y,
            ..
        } = places[place];
        charges[place] = Charge { coflow, port, y };
    }
    charges
}
