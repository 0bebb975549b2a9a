//! A run of `live` before its first round.
ghost use Rattle.std.specs.Prelude.{◌≡◌, ◌≤◌, ℕ, [], IfOk};
ghost use Rattle.coflow_units.specs.declared.limits.TheConstants.{MAX_CLIENTS};
ghost use Rattle.live_model.specs.Script.{limit_of};
ghost use Rattle.live_serving.specs.Ends.{MayBeAsked};
ghost use Rattle.live_serving.specs.Going.{IsGoing};

use crate::limit::commands_of;
use crate::seats::seat_clients;
use client_session::{Hall, Session};
use coflow_units::NoMemory;
use live_rounds::PullDone;
use master_core::Master;
use slot_runner::Runner;
use std::alloc::Global;
use workload::Script;

/// The calls of the driver: 2^40.
const CALLS: u64 = 1_099_511_627_776;

/// A hall, the sessions of its clients, and what their pulls were told.
#[derive(Drop)]
pub(crate) struct Begun {
    pub(crate) hall: Hall,
    pub(crate) sessions: Vec<Session>,
    pub(crate) pulls: Vec<PullDone>,
}

/// A hall of the master with a session for each client, of as many calls as the script has commands, and the runner of
/// the hall. The error is want of memory, and drops the master.
pub(crate) fn begin(
    alloc: Global,
    master: Master,
    script: &Script,
) -> Result<(Begun, Runner), NoMemory>
    requires empty { master.journal ≡ [] }
    requires limit { master.opening.limit ≡ limit_of master.opening script.now }
    requires asked { MayBeAsked master.opening script.now }
    requires clients { script.now.clients ≤ MAX_CLIENTS }
    ensures opening { IfOk result (λ b. b.0.hall.setting.opening ≡ master.opening) }
    ensures none { IfOk result (λ b. b.1.driver.journal ≡ []) }
    ensures under_way { (most : ℕ) → IfOk result (λ b.
        IsGoing b.0.hall script.now most 0 b.1 b.0.sessions.items b.0.pulls.items) }
{
    let ports = master.table().ports();
    let (hall, mut driver) = Hall::begin(alloc, master, CALLS)?;
    let _within = hall.coflows();
    let calls = commands_of(script);
    let Ok(sessions) = seat_clients(alloc, &hall, &mut driver, script.clients, calls) else {
        drop(hall);
        drop(driver);
        return Err(NoMemory);
    };
    match Runner::new(alloc, driver, ports) {
        Ok(runner) => Ok((
            Begun {
                hall,
                sessions,
                pulls: Vec::new(alloc),
            },
            runner,
        )),
        Err(back) => {
            drop(hall);
            drop(sessions);
            drop(back);
            Err(NoMemory)
        }
    }
}
