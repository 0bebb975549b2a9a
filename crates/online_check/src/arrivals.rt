//! Arrivals as times in slots.
ghost use Rattle.std.specs.Prelude.{◌≡◌, ◌≤◌, All, IfOk, length};
ghost use Rattle.coflow_units.specs.declared.limits.TheConstants.{MAX_ARRIVAL};
ghost use Rattle.online_check.specs.Arrivals.{arrival_slot, arrivals_in};

use coflow_units::NoMemory;
use flow_table::Table;
use std::alloc::Global;

/// The time in slots at which each coflow of a table arrives, by number, where a slot takes `slot_ms` milliseconds, at
/// least one: its arrival in milliseconds over these, rounded up. The error is want of memory.
pub fn arrivals_of(alloc: Global, table: &Table, slot_ms: u64) -> Result<Vec<u64>, NoMemory>
    requires some { 1 ≤ slot_ms }
    ensures arrivals { IfOk result (λ arrivals. arrivals.items ≡ arrivals_in table.now slot_ms) }
    ensures each { IfOk result (λ arrivals. length arrivals.items ≡ length table.now.ids) }
    ensures range { IfOk result (λ arrivals. All (λ a. a ≤ MAX_ARRIVAL) arrivals.items) }
{
    let mut arrivals = Vec::new(alloc);
    for coflow in 0..table.coflows() {
        arrivals.push(arrival_slot(table.arrival(coflow), slot_ms))?;
    }
    Ok(arrivals)
}

/// The time in slots that comes at these milliseconds or next after them.
fn arrival_slot(milliseconds: u32, slot_ms: u64) -> u64
    requires some { 1 ≤ slot_ms }
    ensures slot { result ≡ arrival_slot slot_ms milliseconds }
    ensures range { result ≤ MAX_ARRIVAL }
{
    u64::from(milliseconds).div_ceil(slot_ms)
}
