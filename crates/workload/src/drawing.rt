//! Coflows, drawn from random numbers.
ghost use Rattle.std.specs.Prelude.{◌≡◌, ◌≤◌, ◌^◌, IfOk, OnOk};
ghost use Rattle.workload.specs.Coflows.{behind_coflow, behind_mappers, behind_reducers, coflow_from, made_coflows, mappers_from, reducer_from, reducers_from};
ghost use Rattle.workload.specs.Draws.{next};

use crate::coflow::{MadeCoflow, MadeReducer};
use crate::numbers::Numbers;
use coflow_units::{Items, NoMemory};
use std::alloc::Global;

/// How many coflows are made, as the first line of a trace says.
const COFLOWS: u64 = 200;

/// How many locations there are, as the first line of a trace says.
const LOCATIONS: u64 = 150;

/// The coflows of a seed.
pub(crate) fn draw_coflows(alloc: Global, seed: u64) -> Result<Items<MadeCoflow>, NoMemory>
    ensures { IfOk result (λ coflows. coflows ≡ made_coflows seed) }
{
    let mut numbers = Numbers::from_seed(seed);
    let mut arrival = 0;
    let mut coflows = Vec::new(alloc);
    for index in 0..COFLOWS {
        let coflow = draw_coflow(alloc, &mut numbers, index + 1, arrival)?;
        arrival = coflow.arrival;
        coflows.push(coflow)?;
    }
    Ok(Items::from_vec(coflows))
}

/// The coflow with this id, where the one before it arrived at the given time.
fn draw_coflow(
    alloc: Global,
    numbers: &mut Numbers,
    id: u64,
    arrival: u64,
) -> Result<MadeCoflow, NoMemory>
    requires { arrival ≤ 2 ^ 32 }
    ensures coflow { IfOk result (λ coflow. coflow ≡ coflow_from id arrival numbers.old.state) }
    ensures state { OnOk result (numbers.new.state ≡ behind_coflow numbers.old.state) }
{
    let growth = numbers.draw(100);
    let mappers = draw_mappers(alloc, numbers)?;
    let reducers = draw_reducers(alloc, numbers)?;
    let weight = 1 + numbers.draw(16);
    Ok(MadeCoflow {
        id,
        arrival: arrival + growth,
        mappers,
        reducers,
        weight,
    })
}

/// The locations of the mappers of a coflow, behind a draw of their number.
fn draw_mappers(alloc: Global, numbers: &mut Numbers) -> Result<Items<u64>, NoMemory>
    ensures mappers { IfOk result (λ mappers. mappers ≡ mappers_from numbers.old.state) }
    ensures state { OnOk result (numbers.new.state ≡ behind_mappers numbers.old.state) }
{
    let count = 1 + numbers.draw(8);
    let mut mappers = Vec::new(alloc);
    for _mapper in 0..count {
        mappers.push(numbers.draw(LOCATIONS))?;
    }
    Ok(Items::from_vec(mappers))
}

/// The reducers of a coflow, behind a draw of their number.
fn draw_reducers(alloc: Global, numbers: &mut Numbers) -> Result<Items<MadeReducer>, NoMemory>
    ensures reducers { IfOk result (λ reducers. reducers ≡ reducers_from numbers.old.state) }
    ensures state { OnOk result (numbers.new.state ≡ behind_reducers numbers.old.state) }
{
    let count = 1 + numbers.draw(8);
    let mut reducers = Vec::new(alloc);
    for _reducer in 0..count {
        reducers.push(draw_reducer(numbers))?;
    }
    Ok(Items::from_vec(reducers))
}

/// A reducer: its location, and then its megabytes.
fn draw_reducer(numbers: &mut Numbers) -> MadeReducer
    ensures reducer { result ≡ reducer_from numbers.old.state }
    ensures state { numbers.new.state ≡ next (next numbers.old.state) }
{
    let location = numbers.draw(LOCATIONS);
    let megabytes = 1 + numbers.draw(64);
    MadeReducer {
        location,
        megabytes,
    }
}
