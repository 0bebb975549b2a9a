//! The released certificate of all coflows.
ghost use Rattle.std.specs.Prelude.{◌≡◌, ℕ, ◌<◌, ◌≤◌, [], All, IfOk, length, reverse, take};
ghost use Rattle.coflow_units.specs.declared.limits.TheConstants.{MAX_UNITS, MAX_WEIGHT};
ghost use Rattle.coflow_units.specs.declared.fabric.Port.{Port};
ghost use Rattle.coflow_units.specs.Flows.{Instance};
ghost use Rattle.port_load.specs.LoadTable.{IsSameSize, total_at};
ghost use Rattle.release_bound.specs.Release.{IsReleasedFeasible};
ghost use Rattle.release_bound.specs.ReleaseOrder.{IsReleasedBy};
ghost use Rattle.release_bound.specs.ReleaseTable.{IsOfTable};

use crate::place::ReleasePlace;
use crate::step;
use crate::threshold::Threshold;
use bssi_order::give_budgets;
use coflow_units::{NoMemory, Port, Side};
use port_load::Loads;
use std::alloc::Global;
use std::marker::Model;

/// Makes a certificate whose total is printed for schedules that serve nobody before its arrival: bottleneck, select,
/// scale, iterate (Agarwal, Rajakrishnan, Narayan, Agarwal, Shmoys and Vahdat, "Sincronia: near-optimal network design
/// for coflows", SIGCOMM 2018), where a coflow that arrives late pays for its earliest end. A threshold says from when
/// on that is. It holds the room that a run needs, and the places of the last run.
///
/// Contracts see a `ReleaseBssi` as the number of coflows that it has room for, and its places.
#[derive(Drop)]
pub struct ReleaseBssi {
    places: Vec<ReleasePlace>,
    count: usize,
    residuals: Vec<u128>,
    waiting: Vec<bool>,
}

impl Model for ReleaseBssi {
    ghost use Rattle.std.specs.Prelude.{length, take};
    ghost use Rattle.bssi_order.specs.Order.{HasRoom};
    ghost use Rattle.release_bound.specs.ReleaseStep.{ReleaseOrders};

    ghost Value = { ReleaseOrders };

    ghost view = { λ s. record { room = length s.places.items; places = take s.count s.places.items } };

    ghost invariant = { λ s. HasRoom (length s.places.items) s.count
        (length s.residuals.items) (length s.waiting.items) };
}

impl ReleaseBssi {
    /// Takes the room for runs over up to `coflows` coflows. What a run needs does not grow with the number of ports.
    /// The error is want of memory.
    pub fn with_room(alloc: Global, coflows: u32, _ports: u32) -> Result<ReleaseBssi, NoMemory>
        ensures room { IfOk result (λ b. b.room ≡ coflows) }
        ensures none { IfOk result (λ b. b.places ≡ []) }
    {
        let no_place = ReleasePlace {
            coflow: 0,
            port: Port {
                side: Side::Ingress,
                number: 0,
            },
            y: 0,
            z: 0,
        };
        let places = vec![in alloc; no_place; coflows as usize]?;
        let residuals = vec![in alloc; 0; coflows as usize]?;
        let waiting = vec![in alloc; false; coflows as usize]?;
        Ok(ReleaseBssi {
            places,
            count: 0,
            residuals,
            waiting,
        })
    }

    /// Makes the certificate by this threshold of all coflows of the loads, with one weight, at most 2^32, and one
    /// arrival, a time in slots, for each of them. The loads are used up: what they hold afterwards is not told.
    pub fn run(&mut self, loads: &mut Loads, weights: &[u64], arrivals: &[u64], by: Threshold)
        requires room { loads.old.coflows ≤ self.old.room }
        requires weights_len { length weights.now ≡ loads.old.coflows }
        requires arrivals_len { length arrivals.now ≡ loads.old.coflows }
        requires weights_fit { All (λ w. w ≤ MAX_WEIGHT) weights.now }
        requires totals_fit { (port : Port) → port.number < loads.old.ports → total_at loads.old port ≤ MAX_UNITS }
        ensures order { (i : Instance) (arrival : ℕ → ℕ) → IsOfTable i arrival loads.old weights.now arrivals.now →
            IsReleasedBy by i arrival (reverse self.new.places) }
        ensures feasible { (i : Instance) (arrival : ℕ → ℕ) → IsOfTable i arrival loads.old weights.now arrivals.now →
            IsReleasedFeasible i.flows i.weight (reverse self.new.places) }
        ensures count { length self.new.places ≡ loads.old.coflows }
        ensures size { IsSameSize loads.old loads.new }
        ensures room { self.new.room ≡ self.old.room }
    {
        self.count = order(
            &mut self.places,
            &mut self.residuals,
            &mut self.waiting,
            loads,
            weights,
            arrivals,
            by,
        );
    }

    /// The places of the last run, from place 1 on, one for each coflow of its loads; none before the first run.
    pub fn places(&self) -> &[ReleasePlace]
        ensures { result.now ≡ self.now.places }
    {
        &self.places[..self.count]
    }
}

/// Fills the first places, one for each coflow, and tells how many they are. The lists may be longer than there are
/// coflows.
fn order(
    places: &mut [ReleasePlace],
    residuals: &mut [u128],
    waiting: &mut [bool],
    loads: &mut Loads,
    weights: &[u64],
    arrivals: &[u64],
    by: Threshold,
) -> usize
    requires room { loads.old.coflows ≤ length places.old }
    requires residuals_len { loads.old.coflows ≤ length residuals.old }
    requires waiting_len { loads.old.coflows ≤ length waiting.old }
    requires weights_len { length weights.now ≡ loads.old.coflows }
    requires arrivals_len { length arrivals.now ≡ loads.old.coflows }
    requires weights_fit { All (λ w. w ≤ MAX_WEIGHT) weights.now }
    requires totals_fit { (port : Port) → port.number < loads.old.ports → total_at loads.old port ≤ MAX_UNITS }
    ensures order { (i : Instance) (arrival : ℕ → ℕ) → IsOfTable i arrival loads.old weights.now arrivals.now →
        IsReleasedBy by i arrival (reverse (take result places.new)) }
    ensures count { result ≡ loads.old.coflows }
    ensures size { IsSameSize loads.old loads.new }
{
    let coflows = loads.coflows() as usize;
    let residuals = &mut residuals[..coflows];
    let waiting = &mut waiting[..coflows];
    waiting.fill(true);
    give_budgets(residuals, weights);
    step::place_all(
        &mut places[..coflows],
        loads,
        arrivals,
        residuals,
        waiting,
        by,
    );
    coflows
}
