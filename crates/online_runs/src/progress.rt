//! What an online run keeps of itself from action to action.
ghost use Rattle.std.specs.Prelude.{◌≡◌, false, [], IfOk, length, map, replicate};
ghost use Rattle.coflow_units.specs.declared.fabric.Flow.{Flow};
ghost use Rattle.epochs.specs.Tallies.{IsTallied};

use coflow_units::NoMemory;
use epochs::{units_of_coflows, units_of_flows};
use flow_table::Table;
use online_text::Epoch;
use schedule_model::Schedule;
use std::alloc::Global;

/// How many slots have passed, the units that each flow and each coflow still owes, which coflows are present, the
/// publishings, and the schedule.
#[derive(Drop)]
pub struct Progress {
    pub time: u64,
    pub left: Vec<u64>,
    pub owed: Vec<u64>,
    pub present: Vec<bool>,
    pub epochs: Vec<Epoch>,
    pub schedule: Schedule,
}

/// What is kept before the first action: all units are owed, and nobody is present.
pub fn no_progress(alloc: Global, table: &Table) -> Result<Progress, NoMemory>
    ensures time { IfOk result (λ p. p.time ≡ 0) }
    ensures left { IfOk result (λ p. p.left.items ≡ map (λ (x : Flow). x.units) table.now.flows) }
    ensures each { IfOk result (λ p. length p.owed.items ≡ length table.now.ids) }
    ensures owed { IfOk result (λ p. IsTallied table.now.flows p.left.items p.owed.items) }
    ensures present { IfOk result (λ p. p.present.items ≡ replicate (length table.now.ids) false) }
    ensures epochs { IfOk result (λ p. p.epochs.items ≡ []) }
    ensures schedule { IfOk result (λ p. p.schedule ≡ []) }
{
    let left = units_of_flows(alloc, table.flows())?;
    let owed = units_of_coflows(alloc, table.flows(), &left, table.coflows())?;
    let present = vec![in alloc; false; table.coflows() as usize]?;
    Ok(Progress {
        time: 0,
        left,
        owed,
        present,
        epochs: Vec::new(alloc),
        schedule: Schedule::new(alloc),
    })
}
