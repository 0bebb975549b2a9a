//! Coflows by their ids.
ghost use Rattle.std.specs.Prelude.{◌≡◌, ◌≤◌, ◌==◌, ◌^◌, ℕ, IfOk, length, nat_eq, position};
ghost use Rattle.indexmap.specs.IndexMap.{get};
ghost use Rattle.coflow_units.specs.declared.limits.TheConstants.{MAX_COFLOWS};
ghost use Rattle.journal_audit.specs.Ids.{Finds};

use coflow_units::NoMemory;
use flow_table::Table;
use indexmap::IndexMap;
use std::alloc::Global;

/// The number of the coflow with each id of the table, found by the id: the least, where several coflows have it. The
/// error is want of memory.
pub fn coflows_by_id(alloc: Global, table: &Table) -> Result<IndexMap<u32, u32>, NoMemory>
    ensures { IfOk result (λ coflows. Finds table.now.ids (get nat_eq coflows)) }
{
    let ids = ids_of(alloc, table)?;
    places_by_id(alloc, &ids)
}

/// What the table of numbers has under the id, as the number of a coflow under its id. None where it has nothing.
pub fn found(coflows: &IndexMap<u32, u32>, id: u32) -> Option<u32>
    ensures { result ≡ get nat_eq coflows.now id }
{
    match coflows.get(&id) {
        Some(coflow) => Some(*coflow),
        None => None,
    }
}

/// The first place of each id in a list, counted from 0.
fn places_by_id(alloc: Global, ids: &[u32]) -> Result<IndexMap<u32, u32>, NoMemory>
    requires { length ids.now ≤ 2 ^ 32 }
    ensures { IfOk result (λ places. (id : ℕ) → get nat_eq places id ≡ position (λ x. x == id) ids.now) }
{
    let mut places = IndexMap::new(alloc);
    for place in 0..ids.len() {
        places.entry(ids[place])?.or_insert(place as u32);
    }
    Ok(places)
}

/// The ids of the coflows, by number.
fn ids_of(alloc: Global, table: &Table) -> Result<Vec<u32>, NoMemory>
    ensures ids { IfOk result (λ ids. ids.items ≡ table.now.ids) }
    ensures few { length table.now.ids ≤ MAX_COFLOWS }
{
    let coflows = table.coflows();
    let mut ids = Vec::new(alloc);
    for coflow in 0..coflows {
        ids.push(table.id(coflow))?;
    }
    Ok(ids)
}
