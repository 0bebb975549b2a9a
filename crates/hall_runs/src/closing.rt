//! How the hall of a game is closed.
ghost use Rattle.std.specs.Prelude.{◌≡◌, All, IfOk};
ghost use Rattle.client_session.specs.Models.{IsDriverOf, IsSessionOf};

use crate::callers::Client;
use crate::stop::Stop;
use client_session::{CloseFault, Driver, Hall, Session};
use coflow_units::NoMemory;
use master_core::Master;
use std::alloc::Global;

/// The sessions of a hall's clients.
fn sessions_of(alloc: Global, _hall: &Hall, clients: Vec<Client>) -> Result<Vec<Session>, NoMemory>
    requires clients { All (λ c. IsSessionOf _hall.now c.session) clients.items }
    ensures sessions { IfOk result (λ v. All (IsSessionOf _hall.now) v.items) }
{
    let mut sessions = Vec::with_capacity(alloc, clients.len())?;
    for client in clients {
        sessions.push_reserved(client.session);
    }
    Ok(sessions)
}

/// Closes the hall.
pub fn closed(
    alloc: Global,
    hall: Hall,
    driver: Driver,
    clients: Vec<Client>,
) -> Result<Master, Stop>
    requires driver { IsDriverOf hall driver }
    requires clients { All (λ c. IsSessionOf hall c.session) clients.items }
    ensures opening { IfOk result (λ master. master.opening ≡ hall.setting.opening) }
{
    let Ok(sessions) = sessions_of(alloc, &hall, clients) else {
        drop(driver);
        drop(hall);
        return Err(Stop::NoMemory);
    };
    match hall.close(alloc, driver, sessions) {
        Ok(master) => Ok(master),
        Err(fault) => {
            let stop = stop_of(&fault);
            drop(fault);
            Err(stop)
        }
    }
}

/// Why a hall is not closed.
fn stop_of(fault: &CloseFault) -> Stop {
    match fault {
        CloseFault::NoMemory(_) => Stop::NoMemory,
        CloseFault::Missing { .. } => Stop::Missing,
    }
}
