//! Which coflows are in the front of a place.
ghost use Rattle.std.specs.Prelude.{◌≡◌, ◌<◌, ◌≤◌, ◌^◌, length};
ghost use Rattle.dual_cert.specs.PlaceTable.{HasPlaces, load_up_to};
ghost use Rattle.dual_cert.specs.TableCertificate.{IsCertificateOf, all_entries, port_at};

use crate::cert::Charge;
use coflow_units::MAX_COFLOWS;
use port_load::Loads;

/// As many as there may be coflows.
pub const COFLOWS: usize = MAX_COFLOWS as usize;

/// For each coflow of the loads the number of its place, counted from 0. The greatest number stands for no place.
pub fn places_of(loads: &Loads, charges: &[Charge]) -> [usize; COFLOWS]
    requires certificate { IsCertificateOf loads.now (all_entries charges.now) }
    ensures { HasPlaces charges.now result }
{
    prove!(loads.coflows() <= MAX_COFLOWS);
    let mut places = [usize::MAX; COFLOWS];
    for place in 0..charges.len() {
        places[charges[place].coflow as usize] = place;
    }
    places
}

/// The load of a coflow on the port of a place, where it is in the front of that place, and else 0. Places count from
/// 0.
pub fn load_in_front(
    loads: &Loads,
    charges: &[Charge],
    places: &[usize],
    place: usize,
    coflow: u32,
) -> u64
    requires places { HasPlaces charges.now places.now }
    requires place_in { place < length charges.now }
    requires port_in { (port_at charges.now place).number < loads.now.ports }
    requires coflow_in { coflow < loads.now.coflows }
    ensures { result ≡ load_up_to loads.now charges.now place coflow }
{
    prove!(loads.coflows() <= MAX_COFLOWS);
    if places[coflow as usize] > place {
        return 0;
    }
    loads.get(coflow, charges[place].port)
}
