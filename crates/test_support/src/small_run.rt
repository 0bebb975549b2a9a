//! Small runs.
ghost use Rattle.std.specs.Prelude.{◌≡◌, ◌≤◌, ◌^◌, ◌*◌, [], ◌∷◌, IfOk, IfSome};
ghost use Rattle.client_session.specs.Halls.{IsFirstDriver};
ghost use Rattle.client_session.specs.Models.{IsDriverOf, IsSessionOf};
ghost use Rattle.slot_runner.specs.Models.{MayRun};
ghost use Rattle.test_support.specs.Closed.{IsJournalOf};

use crate::small::SmallHall;
use client_session::{Driver, Hall, Session};
use coflow_units::{Items, NoMemory};
use flow_table::Table;
use master_core::{Entry, Master};
use slot_runner::Runner;
use std::alloc::Global;
use std::sync::Wait;

/// A hall, its runner, and its one session.
#[derive(Drop)]
pub struct SmallRun {
    pub hall: Hall,
    pub runner: Runner,
    pub session: Session,
}

impl SmallRun {
    /// A new hall of a table's coflows, each of weight 1. Its session has asked that they join, in the order of their
    /// numbers, and are ordered. The journal takes entries up to the limit, from 1 to 2^23, and the runner's driver so
    /// many calls.
    ///
    /// The error is want of memory.
    pub fn of_table<R: Wait>(
        rt: &R,
        alloc: Global,
        table: Table,
        limit: u32,
        calls: u32,
    ) -> Result<SmallRun, NoMemory>
        requires some { 1 ≤ limit }
        requires few { limit ≤ 2 ^ 23 }
        ensures table { IfOk result (λ it. it.hall.setting.opening.table ≡ table) }
        ensures may { IfOk result (λ it. MayRun it.hall it.runner) }
        ensures calls { IfOk result (λ it. it.runner.driver.left ≡ calls) }
        ensures session { IfOk result (λ it. IsSessionOf it.hall it.session) }
    {
        let ports = table.ports();
        let (hall, driver) = begun(alloc, table, limit, calls)?;
        match ready(rt, alloc, &hall, driver, ports) {
            Ok((runner, session)) => Ok(SmallRun {
                hall,
                runner,
                session,
            }),
            Err(error) => {
                drop(hall);
                Err(error)
            }
        }
    }

    /// Closes the hall, and answers a copy of its journal. A close that finds no memory is tried once more.
    ///
    /// None means that memory was wanting.
    pub fn journal(self, alloc: Global) -> Option<Vec<Entry>>
        requires may { MayRun self.hall self.runner }
        requires session { IsSessionOf self.hall self.session }
        ensures journal { IfSome result
            (λ it. IsJournalOf self.hall self.runner.driver (self.session ∷ []) it.items) }
    {
        let SmallRun {
            hall,
            runner,
            session,
        } = self;
        let driver = runner.into_driver();
        let Ok(mut sessions) = Vec::with_capacity(alloc, 1) else {
            drop(hall);
            drop(driver);
            drop(session);
            return None;
        };
        sessions.push_reserved(session);
        let small = SmallHall {
            hall,
            driver,
            sessions,
        };
        small.journal(alloc)
    }
}

/// A hall of a table's coflows, each of weight 1, and its driver.
fn begun(alloc: Global, table: Table, limit: u32, calls: u32) -> Result<(Hall, Driver), NoMemory>
    requires some { 1 ≤ limit }
    requires few { limit ≤ 2 ^ 23 }
    ensures table { IfOk result (λ made. made.0.setting.opening.table ≡ table) }
    ensures driver { IfOk result (λ made. IsFirstDriver made.0 calls made.1) }
{
    let Ok(weights) = vec![in alloc; 1; table.coflows() as usize] else {
        drop(table);
        return Err(NoMemory);
    };
    let master = Master::new(alloc, table, Items::from_vec(weights), limit)?;
    Hall::begin(alloc, master, u64::from(calls))
}

/// A runner of a new hall's driver, and the session that asked that all coflows join and are ordered.
fn ready<R: Wait>(
    rt: &R,
    alloc: Global,
    hall: &Hall,
    mut driver: Driver,
    ports: u32,
) -> Result<(Runner, Session), NoMemory>
    requires own { IsDriverOf hall.now driver }
    requires new { (driver.made ≡ 0) × (driver.journal ≡ []) }
    requires ports { ports ≡ hall.now.setting.opening.table.ports }
    ensures may { IfOk result (λ made. MayRun hall.entry.now made.0) }
    ensures calls { IfOk result (λ made. made.0.driver.left ≡ driver.left) }
    ensures session { IfOk result (λ made. IsSessionOf hall.entry.now made.1) }
{
    let Ok(mut session) = hall.session(alloc, &mut driver, hall.coflows() + 1) else {
        drop(driver);
        return Err(NoMemory);
    };
    join_all(rt, hall, &mut session);
    match Runner::new(alloc, driver, ports) {
        Ok(runner) => Ok((runner, session)),
        Err(back) => {
            drop(back);
            drop(session);
            Err(NoMemory)
        }
    }
}

/// The coflows join in the order of their numbers, and are ordered.
fn join_all<R: Wait>(rt: &R, hall: &Hall, session: &mut Session)
    requires own { IsSessionOf hall.now session.old }
    ensures own { IsSessionOf hall.entry.now session.new }
{
    for coflow in 0..hall.coflows() {
        session.register(rt, hall, coflow);
    }
    session.publish(rt, hall);
}
