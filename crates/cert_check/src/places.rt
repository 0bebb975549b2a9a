//! The coflows that the places of a report name.
ghost use Rattle.std.specs.Prelude.{◌≡◌, ◌<◌, ◌≤◌, ◌==◌, ℕ, All, IfOk, MatchOption, None, length, position};
ghost use Rattle.indexmap.specs.IndexMap.{get};
ghost use Rattle.std.specs.Prelude.{nat_eq};
ghost use Rattle.coflow_units.specs.declared.limits.TheConstants.{MAX_COFLOWS};
ghost use Rattle.report_text.specs.declared.value.PlaceLine.{PlaceLine};
ghost use Rattle.cert_check.specs.Parts.{IsNamed};
ghost use Rattle.cert_check.specs.Places.{IsFirstOutOfRange};

use coflow_units::NoMemory;
use flow_table::Table;
use indexmap::IndexMap;
use report_text::PlaceLine;
use std::alloc::Global;

/// The coflow of each place, or the first place whose id does not name a new coflow, counted from 1.
#[derive(Drop)]
pub enum Named {
    /// The coflows, place by place.
    Coflows(Vec<u32>),
    /// The first wrong place.
    Wrong(u32),
}

/// Looks up the coflows of the places by their ids. The first wrong place is one whose id is no coflow's or stood at a
/// place before, or the one past the last where some coflow has no place. The error is want of memory.
pub fn coflows_of(alloc: Global, table: &Table, places: &[PlaceLine]) -> Result<Named, NoMemory>
    ensures { IfOk result (λ named. IsNamed table.now.ids places.now named) }
{
    let count = table.coflows() as usize;
    let mut unplaced = coflows_by_id(alloc, table)?;
    let mut coflows = Vec::new(alloc);
    for place in places {
        let Some(coflow) = unplaced.swap_remove(&place.id) else {
            return Ok(Named::Wrong(coflows.len() as u32 + 1));
        };
        coflows.push(coflow)?;
    }
    if coflows.len() < count {
        return Ok(Named::Wrong(coflows.len() as u32 + 1));
    }
    Ok(Named::Coflows(coflows))
}

/// The number of the coflow with each id.
fn coflows_by_id(alloc: Global, table: &Table) -> Result<IndexMap<u32, u32>, NoMemory>
    ensures { IfOk result (λ coflows. (id : ℕ) → get nat_eq coflows id ≡ position (λ x. x == id) table.now.ids) }
{
    let mut coflows = IndexMap::new(alloc);
    for coflow in 0..table.coflows() {
        coflows.entry(table.id(coflow))?.or_insert(coflow);
    }
    Ok(coflows)
}

/// The first place, counted from 1, whose port has a number that is not below the number of ports, with that number.
/// There are at most 4096 places.
pub fn out_of_range(ports: u32, places: &[PlaceLine]) -> Option<(u32, u32)>
    requires { length places.now ≤ MAX_COFLOWS }
    ensures { MatchOption result (All (λ (p : PlaceLine). p.port.number < ports) places.now)
        (λ w. IsFirstOutOfRange ports places.now w.0 w.1) }
{
    for index in 0..places.len() {
        let number = places[index].port.number;
        if number >= ports {
            return Some((index as u32 + 1, number));
        }
    }
    None
}
