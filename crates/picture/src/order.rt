//! The places of an order.
ghost use Rattle.std.specs.Prelude.{◌<◌, ◌≤◌, All, IfOk, length};
ghost use Rattle.coflow_units.specs.declared.limits.TheConstants.{MAX_COFLOWS};
ghost use Rattle.coflow_units.specs.Flows.{IsDistinct};
ghost use Rattle.picture.specs.Order.{IsPlaces};

use coflow_units::NoMemory;
use std::alloc::Global;

/// The places of so many coflows by number, from an order that has each of them once. Places count from 1.
///
/// There are at most 4096 coflows. The error is want of memory.
pub fn places_of(alloc: Global, coflows: u32, order: &[u32]) -> Result<Vec<u32>, NoMemory>
    requires coflows { All (λ c. c < coflows) order.now }
    requires once { IsDistinct order.now }
    requires few { length order.now ≤ MAX_COFLOWS }
    ensures { IfOk result (λ places. IsPlaces order.now places.items) }
{
    let mut places = vec![in alloc; 0u32; coflows as usize]?;
    for k in 0..order.len() {
        places[order[k] as usize] = k as u32 + 1;
    }
    Ok(places)
}
