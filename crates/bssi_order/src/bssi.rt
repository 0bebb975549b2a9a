//! The order of the coflows that are present.
ghost use Rattle.std.specs.Prelude.{◌≡◌, ◌≢◌, ℕ, ◌*◌, ◌^◌, ◌<◌, ◌≤◌, true, false, List, [], All, IfOk, Contains, count_by, length, reverse, slice_index, take};
ghost use Rattle.coflow_units.specs.declared.limits.TheConstants.{MAX_UNITS, MAX_WEIGHT, SCALE};
ghost use Rattle.coflow_units.specs.declared.fabric.Port.{Port};
ghost use Rattle.coflow_units.specs.Flows.{Instance};
ghost use Rattle.coflow_units.specs.Certificate.{IsBelowLoads, IsFeasible, rest};
ghost use Rattle.port_load.specs.LoadTable.{IsSameSize, is_present, load_at, total_at};
ghost use Rattle.bssi_order.specs.Order.{IsOf, IsOrder, entries_of};

use crate::step;
use coflow_units::{NoMemory, Place, Port, SCALE, Side};
use port_load::Loads;
use std::alloc::Global;
use std::marker::Model;

/// Orders coflows by bottleneck, select, scale, iterate (Agarwal, Rajakrishnan, Narayan, Agarwal, Shmoys and Vahdat,
/// "Sincronia: near-optimal network design for coflows", SIGCOMM 2018), with budgets in parts of 2^40 of a weight of 1.
/// It holds the room that a run needs, and the places of the last run.
///
/// Contracts see a `Bssi` as the number of coflows that it has room for, and its places.
#[derive(Drop)]
pub struct Bssi {
    places: Vec<Place>,
    count: usize,
    residuals: Vec<u128>,
    waiting: Vec<bool>,
}

impl Model for Bssi {
    ghost use Rattle.std.specs.Prelude.{◌≡◌, ◌≤◌, length, take};
    ghost use Rattle.bssi_order.specs.Order.{HasRoom, Orders};

    ghost Value = { Orders };

    ghost view = { λ s. record { room = length s.places.items; places = take s.count s.places.items } };

    ghost invariant = { λ s. HasRoom (length s.places.items) s.count
        (length s.residuals.items) (length s.waiting.items) };
}

impl Bssi {
    /// Takes the room for runs over up to `coflows` coflows. What a run needs does not grow with the number of ports.
    /// The error is want of memory.
    pub fn with_room(alloc: Global, coflows: u32, _ports: u32) -> Result<Bssi, NoMemory>
        ensures room { IfOk result (λ b. b.room ≡ coflows) }
        ensures none { IfOk result (λ b. b.places ≡ []) }
    {
        let no_place = Place {
            coflow: 0,
            port: Port {
                side: Side::Ingress,
                number: 0,
            },
            y: 0,
            rest: 0,
            load: 0,
        };
        let places = vec![in alloc; no_place; coflows as usize]?;
        let residuals = vec![in alloc; 0; coflows as usize]?;
        let waiting = vec![in alloc; false; coflows as usize]?;
        Ok(Bssi {
            places,
            count: 0,
            residuals,
            waiting,
        })
    }

    /// Orders the coflows that are present, with one weight and one mark for each coflow of the loads. The loads are
    /// used up: what they hold afterwards is not told.
    pub fn run(&mut self, loads: &mut Loads, weights: &[u64], present: &[bool])
        requires room { loads.old.coflows ≤ self.old.room }
        requires weights_len { length weights.now ≡ loads.old.coflows }
        requires present_len { length present.now ≡ loads.old.coflows }
        requires weights_fit { All (λ w. w ≤ MAX_WEIGHT) weights.now }
        requires totals_fit { (port : Port) → port.number < loads.old.ports → total_at loads.old port ≤ MAX_UNITS }
        ensures order { (i : Instance) → IsOf i loads.old weights.now present.now → IsOrder i self.new.places }
        ensures feasible { (i : Instance) → IsOf i loads.old weights.now present.now →
            IsFeasible i.flows i.weight (entries_of self.new.places) }
        ensures below { (i : Instance) → IsOf i loads.old weights.now present.now →
            IsBelowLoads i.flows (rest i.flows i.weight (entries_of self.new.places)) (entries_of self.new.places) }
        ensures count { length self.new.places ≡ count_by (λ here. here) present.now }
        ensures size { IsSameSize loads.old loads.new }
        ensures room { self.new.room ≡ self.old.room }
    {
        self.count = order(
            &mut self.places,
            &mut self.residuals,
            &mut self.waiting,
            loads,
            weights,
            present,
        );
    }

    /// The places of the last run, from place 1 on, one for each coflow that was present; none before the first run.
    pub fn places(&self) -> &[Place]
        ensures { result.now ≡ self.now.places }
    {
        &self.places[..self.count]
    }
}

/// Fills the first places, and tells how many they are. The lists may be longer than there are coflows.
fn order(
    places: &mut [Place],
    residuals: &mut [u128],
    waiting: &mut [bool],
    loads: &mut Loads,
    weights: &[u64],
    present: &[bool],
) -> usize
    requires room { loads.old.coflows ≤ length places.old }
    requires residuals_len { loads.old.coflows ≤ length residuals.old }
    requires waiting_len { loads.old.coflows ≤ length waiting.old }
    requires weights_len { length weights.now ≡ loads.old.coflows }
    requires present_len { length present.now ≡ loads.old.coflows }
    requires weights_fit { All (λ w. w ≤ MAX_WEIGHT) weights.now }
    requires totals_fit { (port : Port) → port.number < loads.old.ports → total_at loads.old port ≤ MAX_UNITS }
    ensures order { (i : Instance) → IsOf i loads.old weights.now present.now → IsOrder i (take result places.new) }
    ensures count { result ≡ count_by (λ here. here) present.now }
    ensures within { result ≤ length places.old }
    ensures size { IsSameSize loads.old loads.new }
{
    let coflows = loads.coflows() as usize;
    let residuals = &mut residuals[..coflows];
    let waiting = &mut waiting[..coflows];
    drop_absent(loads, present);
    waiting.copy_from_slice(present);
    give_budgets(residuals, weights);
    let count = count_present(present);
    step::place_all(&mut places[..count], loads, residuals, waiting);
    count
}

fn count_present(present: &[bool]) -> usize
    ensures count { result ≡ count_by (λ here. here) present.now }
    ensures within { result ≤ length present.now }
{
    let mut count = 0;
    for here in present {
        if *here {
            count += 1;
        }
    }
    count
}

fn drop_absent(loads: &mut Loads, present: &[bool])
    requires { length present.now ≡ loads.old.coflows }
    ensures size { IsSameSize loads.old loads.new }
    ensures present_stay { (coflow : ℕ) (port : Port) → coflow < loads.old.coflows → port.number < loads.old.ports →
        is_present present.now coflow ≡ true → load_at loads.new coflow port ≡ load_at loads.old coflow port }
    ensures absent_go { (coflow : ℕ) (port : Port) → coflow < loads.old.coflows → port.number < loads.old.ports →
        is_present present.now coflow ≡ false → load_at loads.new coflow port ≡ 0 }
{
    for coflow in 0..loads.coflows() {
        if !present[coflow as usize] {
            loads.drop_coflow(coflow);
        }
    }
}

/// Sets each residual to the coflow's budget: its weight, at most 2^32, times 2^40. There are as many residuals as
/// weights.
pub fn give_budgets(residuals: &mut [u128], weights: &[u64])
    requires len { length residuals.old ≡ length weights.now }
    requires weights_fit { All (λ w. w ≤ MAX_WEIGHT) weights.now }
    ensures { (coflow : ℕ) → coflow < length weights.now →
        slice_index residuals.new coflow ≡ slice_index weights.now coflow * SCALE }
{
    for coflow in 0..weights.len() {
        residuals[coflow] = weights[coflow] as u128 * SCALE;
    }
}
