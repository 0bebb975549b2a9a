//! The search for a flow that owes.
ghost use Rattle.std.specs.Prelude.{◌≡◌, ◌<◌, true, MatchOption, length};
ghost use Rattle.master_core.specs.Owing.{IsNoneOwing, is_owing};

use crate::ledger::Ledger;
use crate::roster::Roster;
use flow_table::Table;

/// The first flow, by number, of a present coflow that owes units. None comes exactly where no such flow owes.
pub fn first_owing(table: &Table, roster: &Roster, ledger: &Ledger) -> Option<u32>
    requires present_len { length roster.now.present ≡ length table.now.ids }
    requires units_len { length ledger.now.units ≡ length table.now.flows }
    ensures { MatchOption result (IsNoneOwing table.now.flows roster.now.present ledger.now.owed
        (length table.now.flows))
        (λ f. (f < length table.now.flows) × (is_owing table.now.flows roster.now.present ledger.now.owed f ≡ true) ×
        IsNoneOwing table.now.flows roster.now.present ledger.now.owed f) }
{
    let flows = table.flows();
    for number in 0..flows.len() as u32 {
        if !roster.is_present(flows[number as usize].coflow) {
            continue;
        }
        if ledger.owed(number) > 0 {
            return Some(number);
        }
    }
    None
}
