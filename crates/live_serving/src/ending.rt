//! The end of a run of `live`.
ghost use Rattle.std.specs.Prelude.{◌≡◌, ℕ, Err, IfOk, IsOk, OnOk};
ghost use Rattle.client_session.specs.Closes.{IsClosed};
ghost use Rattle.live_serving.specs.declared.answer.LiveFault.TheVariants as fault;
ghost use Rattle.live_serving.specs.declared.stop.Stop.TheVariants.{Full, WireFault};
ghost use Rattle.live_serving.specs.Going.{AreSeated, IsEnded, IsFilled};
ghost use Rattle.live_serving.specs.Served.{IsTold};

use crate::answer::{LiveFault, Served};
use crate::beginning::Begun;
use crate::pulls::pull_lines;
use crate::stop::Stop;
use client_session::{CloseFault, Driver, Hall, Session};
use coflow_units::{Items, NoMemory};
use master_core::Master;
use std::alloc::Global;
use workload::Script;

/// Closes the hall and tells the pulls, once the work is ended. Where a turn found no room the hall is closed as well:
/// its journal would then show that there was room, so that this never comes.
pub(crate) fn end(
    alloc: Global,
    run: Begun,
    driver: Driver,
    script: &Script,
    answer: Result<(), Stop>,
) -> Result<Served, LiveFault>
    requires ended { OnOk answer ((most : ℕ) ×
        IsEnded run.hall script.now most driver run.sessions.items run.pulls.items) }
    requires filled { answer ≡ Err Full → (most : ℕ) ×
        IsFilled run.hall script.now most driver run.sessions.items }
    ensures opening { IfOk result (λ s. s.master.opening ≡ run.hall.setting.opening) }
    ensures no_stop { IfOk result (λ s. IsOk answer) }
    ensures told { (most : ℕ) → IfOk result (λ s.
        IsEnded run.hall script.now most driver run.sessions.items run.pulls.items →
        IsTold run.hall.setting.opening script.now most s.master.journal driver.journal s.pulls) }
    ensures fault { (port : ℕ) → result ≡ Err (fault.WireFault port) → answer ≡ Err (WireFault port) }
{
    match answer {
        Ok(()) => tell(alloc, run, driver, script),
        Err(Stop::Full) => {
            refuse(alloc, run, driver, script);
            Err(LiveFault::NoMemory)
        }
        Err(Stop::WireFault { port }) => {
            drop(run);
            drop(driver);
            Err(LiveFault::WireFault { port })
        }
        Err(Stop::NoMemory) => {
            drop(run);
            drop(driver);
            Err(LiveFault::NoMemory)
        }
    }
}

// Closes the hall, and tells the pulls.
fn tell(alloc: Global, run: Begun, driver: Driver, script: &Script) -> Result<Served, LiveFault>
    requires ended { (most : ℕ) × IsEnded run.hall script.now most driver run.sessions.items run.pulls.items }
    ensures opening { IfOk result (λ s. s.master.opening ≡ run.hall.setting.opening) }
    ensures told { (most : ℕ) → IfOk result (λ s.
        IsEnded run.hall script.now most driver run.sessions.items run.pulls.items →
        IsTold run.hall.setting.opening script.now most s.master.journal driver.journal s.pulls) }
    ensures fault { (port : ℕ) → result ≡ Err (fault.WireFault port) → ⊥ }
{
    let Begun {
        hall,
        sessions,
        pulls,
    } = run;
    let _within = hall.coflows();
    let master = close(alloc, hall, driver, sessions)?;
    let Ok(lines) = pull_lines(alloc, master.table(), pulls.as_slice(), script.clients) else {
        drop(master);
        return Err(LiveFault::NoMemory);
    };
    Ok(Served {
        master,
        pulls: Items::from_vec(lines),
    })
}

// Closes a hall in which a turn found no room. Its journal shows that there was room, so there is no memory to close
// it.
fn refuse(alloc: Global, run: Begun, driver: Driver, _script: &Script)
    requires filled { (most : ℕ) × IsFilled run.hall _script.now most driver run.sessions.items }
{
    let Begun { hall, sessions, .. } = run;
    match close(alloc, hall, driver, sessions) {
        Ok(_master) => unreachable!(),
        Err(_no_memory) => {}
    }
}

// Closes the hall, to which all of its sessions are given.
fn close(
    alloc: Global,
    hall: Hall,
    driver: Driver,
    sessions: Vec<Session>,
) -> Result<Master, NoMemory>
    requires seated { (script : Script) × AreSeated hall script driver sessions.items }
    ensures { IfOk result (IsClosed hall driver sessions.items) }
{
    match hall.close(alloc, driver, sessions) {
        Ok(master) => Ok(master),
        Err(CloseFault::NoMemory(closing)) => {
            drop(closing);
            Err(NoMemory)
        }
        Err(CloseFault::Missing { .. }) => unreachable!(),
    }
}
