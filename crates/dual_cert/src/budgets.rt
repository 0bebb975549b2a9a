//! What the coflows of a certificate pay, against their budgets.
ghost use Rattle.std.specs.Prelude.{◌≡◌, ℕ, ◌+◌, ◌-◌, ◌*◌, ◌^◌, ◌<◌, List, None, IfSome, length, min, reverse, slice_index};
ghost use Rattle.coflow_units.specs.declared.fabric.Flow.{Flow};
ghost use Rattle.coflow_units.specs.declared.limits.TheConstants.{MAX_COFLOWS};
ghost use Rattle.coflow_units.specs.Certificate.{IsFeasible, used};
ghost use Rattle.dual_cert.specs.PlaceTable.{HasPlaces, load_up_to};
ghost use Rattle.dual_cert.specs.TableCertificate.{HasLoadsOf, HasWeightsOf, IsCertificateOf, IsLeastInfeasible, all_entries, charge_at, port_at};

use crate::cert::{Cert, Charge};
use crate::fronts::{COFLOWS, load_in_front, places_of};
use coflow_units::SCALE;
use port_load::Loads;

/// The least coflow that pays more than its budget of weight times 2^40, with one weight for each coflow of the loads.
/// A coflow pays y times its load on the port at each place up to which it stands. Each y may be any number of 128
/// bits.
pub fn infeasible(loads: &Loads, weights: &[u64], cert: &Cert) -> Option<u32>
    requires weights_len { length weights.now ≡ loads.now.coflows }
    requires certificate { IsCertificateOf loads.now (reverse cert.now) }
    ensures none { (flows : List Flow) (weight : ℕ → ℕ) → HasLoadsOf flows loads.now (reverse cert.now) →
        HasWeightsOf weight weights.now (reverse cert.now) →
        result ≡ None → IsFeasible flows weight (reverse cert.now) }
    ensures least { (flows : List Flow) (weight : ℕ → ℕ) → HasLoadsOf flows loads.now (reverse cert.now) →
        HasWeightsOf weight weights.now (reverse cert.now) →
        IfSome result (λ coflow. IsLeastInfeasible flows weight (reverse cert.now) coflow) }
    ensures within { IfSome result (λ coflow. coflow < loads.now.coflows) }
{
    let charges = cert.charges();
    let places = places_of(loads, charges);
    let paid = payments(loads, charges, &places);
    for coflow in 0..loads.coflows() {
        if paid[coflow as usize] > weights[coflow as usize] as u128 * SCALE {
            return Some(coflow);
        }
    }
    None
}

/// What each coflow pays, by number: exact up to the greatest number of 128 bits, which stands for all that is above
/// it.
pub fn payments(loads: &Loads, charges: &[Charge], places: &[usize]) -> [u128; COFLOWS]
    requires places { HasPlaces charges.now places.now }
    requires certificate { IsCertificateOf loads.now (all_entries charges.now) }
    ensures { (flows : List Flow) (coflow : ℕ) → HasLoadsOf flows loads.now (all_entries charges.now) →
        coflow < loads.now.coflows →
        slice_index result coflow ≡ min (used flows (all_entries charges.now) coflow) (2 ^ 128 - 1) }
{
    let mut paid = [0; COFLOWS];
    for place in 0..charges.len() {
        pay_at(loads, charges, places, place, &mut paid);
    }
    paid
}

/// Each coflow of the front of a place pays for its load on the place's port.
fn pay_at(loads: &Loads, charges: &[Charge], places: &[usize], place: usize, paid: &mut [u128])
    requires places { HasPlaces charges.now places.now }
    requires place_in { place < length charges.now }
    requires port_in { (port_at charges.now place).number < loads.now.ports }
    requires paid_len { length paid.old ≡ MAX_COFLOWS }
    ensures { (coflow used : ℕ) → coflow < loads.now.coflows → slice_index paid.old coflow ≡ min used (2 ^ 128 - 1) →
        slice_index paid.new coflow ≡
        min (used + (charge_at charges.now place).y * load_up_to loads.now charges.now place coflow) (2 ^ 128 - 1) }
{
    let charge = charges[place];
    let coflows = loads.coflows();
    let mut coflow = loads.next_loaded(charge.port, 0);
    'loaded: while coflow < coflows {
        let load = load_in_front(loads, charges, places, place, coflow) as u128;
        let before = paid[coflow as usize];
        paid[coflow as usize] = before.saturating_add(charge.y.saturating_mul(load));
        coflow = loads.next_loaded(charge.port, coflow + 1);
    }
}
