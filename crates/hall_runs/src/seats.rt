//! Halls that games begin, and their callers.
ghost use Rattle.std.specs.Prelude.{◌≡◌, ◌≤◌, [], All, IfOk, OnOk, length};
ghost use Rattle.client_session.specs.Models.{IsDriverOf};
ghost use Rattle.hall_runs.specs.Callers.{IsClientOf, IsPilotOf};
ghost use Rattle.hall_runs.specs.declared.callers.TheConstants.{MAX_EACH};

use crate::callers::{Client, Pilot, Size};
use crate::draw::Draw;
use client_session::{Driver, Hall};
use coflow_units::{Items, NoMemory};
use flow_table::Table;
use master_core::Master;
use std::alloc::Global;

/// How many clients a hall has beside its driver.
pub const CLIENTS: u32 = 7;

/// A master of the table's coflows, each of weight 1, with room in its journal for all commands.
pub fn master_of(alloc: Global, table: Table, commands: u32) -> Result<Master, NoMemory>
    requires few { commands ≤ MAX_EACH }
    ensures table { IfOk result (λ m. m.opening.table ≡ table) }
    ensures journal { IfOk result (λ m. m.journal ≡ []) }
{
    let Ok(weights) = vec![in alloc; 1; table.coflows() as usize] else {
        drop(table);
        return Err(NoMemory);
    };
    let limit = (CLIENTS + 1) * commands + 1;
    Master::new(alloc, table, Items::from_vec(weights), limit)
}

/// A hall over a table, and its driver, which has made no session.
pub fn begun(alloc: Global, table: Table, size: Size) -> Result<(Hall, Driver), NoMemory>
    requires few { size.commands ≤ MAX_EACH }
    requires ports { size.ports ≡ table.ports }
    ensures table { IfOk result (λ made. made.0.setting.opening.table ≡ table) }
    ensures driver { IfOk result (λ made. IsDriverOf made.0 made.1 × (made.1.made ≡ 0)) }
{
    let calls = u64::from(size.commands) + u64::from(size.ports) + 2;
    let master = master_of(alloc, table, size.commands)?;
    Hall::begin(alloc, master, calls)
}

/// The driver and the clients of a hall, which draw from the seed.
pub fn seated(
    alloc: Global,
    hall: &Hall,
    mut driver: Driver,
    seed: u32,
    size: Size,
) -> Result<(Pilot, Vec<Client>), NoMemory>
    requires own { IsDriverOf hall.now driver }
    requires none_made { driver.made ≡ 0 }
    requires coflows { size.coflows ≡ length hall.now.setting.opening.table.ids }
    ensures pilot { IfOk result (λ made. IsPilotOf hall.now size.commands made.0) }
    ensures clients { IfOk result (λ made. All (IsClientOf hall.now size.commands) made.1.items) }
{
    let Ok(clients) = clients_of(alloc, hall, &mut driver, seed, size.commands) else {
        drop(driver);
        return Err(NoMemory);
    };
    let Ok(pilot) = Pilot::new(alloc, driver, Draw::of(seed, 0), size) else {
        drop(clients);
        return Err(NoMemory);
    };
    Ok((pilot, clients))
}

/// The clients of a hall, which draw from the seed.
fn clients_of(
    alloc: Global,
    hall: &Hall,
    driver: &mut Driver,
    seed: u32,
    commands: u32,
) -> Result<Vec<Client>, NoMemory>
    requires own { IsDriverOf hall.now driver.old }
    requires none_made { driver.old.made ≡ 0 }
    ensures clients { IfOk result (λ v. All (IsClientOf hall.now commands) v.items) }
    ensures driver { OnOk result (IsDriverOf hall.now driver.new) }
{
    let mut clients = Vec::with_capacity(alloc, CLIENTS as usize)?;
    for before in 0..CLIENTS {
        let draw = Draw::of(seed, before + 1);
        let Ok(client) = Client::new(alloc, hall, driver, draw, commands) else {
            drop(clients);
            return Err(NoMemory);
        };
        clients.push_reserved(client);
    }
    Ok(clients)
}
