//! The sessions of the clients.
ghost use Rattle.std.specs.Prelude.{◌≡◌, ◌≤◌, All, IfOk, OnOk, length};
ghost use Rattle.coflow_units.specs.declared.limits.TheConstants.{MAX_CLIENTS};
ghost use Rattle.client_session.specs.Models.{IsDriverOf, IsSessionOf};
ghost use Rattle.live_serving.specs.Followed.{AreBegun};

use client_session::{Driver, Hall, Session};
use coflow_units::NoMemory;
use std::alloc::Global;

/// Makes the sessions of the clients with the numbers from 1 to `clients`, at most 64, in the order of their numbers,
/// each with so many calls. The driver has made no session and has seen nothing.
///
/// The error is want of memory.
pub fn seat_clients(
    alloc: Global,
    hall: &Hall,
    driver: &mut Driver,
    clients: u32,
    calls: u32,
) -> Result<Vec<Session>, NoMemory>
    requires driver { IsDriverOf hall.now driver.old }
    requires none_made { driver.old.made ≡ 0 }
    requires nothing_seen { driver.old.position ≡ 0 }
    requires few { clients ≤ MAX_CLIENTS }
    ensures driver { OnOk result (driver.new ≡ record driver.old { made = clients }) }
    ensures own { IfOk result (λ sessions. All (IsSessionOf hall.now) sessions.items) }
    ensures begun { IfOk result (λ sessions. AreBegun calls 1 sessions.items) }
    ensures as_many { IfOk result (λ sessions. length sessions.items ≡ clients) }
{
    let mut sessions = Vec::with_capacity(alloc, clients as usize)?;
    for made in 0..clients {
        let session = hall.session(alloc, driver, calls)?;
        sessions.push_reserved(session);
    }
    Ok(sessions)
}
