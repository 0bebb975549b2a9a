//! A hall of two clients, each on a thread of its own, and a run that two agents send. It prints what was answered.
#![tactic(auto)]

ghost use Rattle.std.specs.Prelude.{◌≡◌, ◌+◌, ◌≤◌, [], All, IfOk, length};
ghost use Rattle.coflow_units.specs.declared.limits.TheConstants.{MAX_PORTS};
ghost use Rattle.client_session.specs.Models.{IsDriverOf, IsSessionOf};

use anyhow::{Context, Result, ensure};
use client_session::{Driver, Hall, Session};
use coflow_units::{Items, NoMemory};
use flow_table::Table;
use master_core::Master;
use outside::CountWire;
use slot_runner::Runner;
use std::alloc::Global;
use std::sync::Wait;
use std::thread::{self, Threads};
use trace_reader::read_trace;

/// Two ports a side. Coflow 0 sends two units from each port to each port, and coflow 1 one unit from port 0 to port 1.
const TRACE: &str = "1 2\n1 0 2 0 1 2 0:4 1:4\n2 0 1 0 1 1:1\n";

fn main(rt: HostRuntime) -> Result<()> {
    let alloc = rt.alloc();
    let table = two_coflows(alloc)?;
    let ports = table.ports();
    let (hall, driver, mut clients) = opened(alloc, table).ok().context("no memory")?;
    ask(&rt, &hall, &mut clients)?;
    let driver = run(alloc, &rt, &hall, driver, ports)?;
    let master = hall
        .close(alloc, driver, clients)
        .ok()
        .context("no memory")?;
    println!(rt; "the journal has {} entries", master.journal().len())?;
    Ok(())
}

/// The table of the trace.
fn two_coflows(alloc: Global) -> Result<Table>
    ensures two { IfOk result (λ table. length table.ids ≡ 2) }
{
    let trace = read_trace(alloc, TRACE.as_bytes())?;
    let table = Table::build(alloc, &trace, 1)?;
    ensure!(table.coflows() == 2, "two coflows");
    Ok(table)
}

/// A hall of a table's coflows, each of weight 1, its driver, and the sessions of two clients. The error is want of
/// memory.
fn opened(alloc: Global, table: Table) -> Result<(Hall, Driver, Vec<Session>), NoMemory>
    ensures table { IfOk result (λ made. made.0.setting.opening.table ≡ table) }
    ensures driver { IfOk result (λ made. IsDriverOf made.0 made.1 × (made.1.journal ≡ [])) }
    ensures clients { IfOk result (λ made. All (IsSessionOf made.0) made.2.items × (length made.2.items ≡ 2)) }
{
    let weights = vec![in alloc; 1u64; table.coflows() as usize]?;
    let master = Master::new(alloc, table, Items::from_vec(weights), 16)?;
    let (hall, mut driver) = Hall::begin(alloc, master, 16)?;
    let one = hall.session(alloc, &mut driver, 4)?;
    let two = hall.session(alloc, &mut driver, 4)?;
    let clients = vec![in alloc; one, two]?;
    Ok((hall, driver, clients))
}

/// Each client registers a coflow, on a thread of its own. Then one publishes, and both pull.
fn ask<R: Print + Threads + Wait + Sync>(rt: &R, hall: &Hall, clients: &mut [Session]) -> Result<()>
    requires own { All (IsSessionOf hall.now) clients.old × (length clients.old ≡ 2) }
    requires coflows { length hall.now.setting.opening.table.ids ≡ 2 }
    ensures own { All (IsSessionOf hall.entry.now) clients.new }
{
    let register = |place: usize, client: &mut Session| {
        client.register(rt, hall, place as u32);
    };
    thread::for_each_mut(rt, clients, 2, &register);
    clients[0].publish(rt, hall);
    tell(rt, &clients[0])?;
    tell(rt, &clients[1])?;
    println!(rt; "client 1 pulls {:?}", clients[0].pull(hall, 0))?;
    println!(rt; "client 2 pulls {:?}", clients[1].pull(hall, 1))?;
    Ok(())
}

/// Prints what the turns of a client were answered.
fn tell(rt: &impl Print, client: &Session) -> Result<()> {
    for receipt in client.receipts() {
        println!(rt; "client {}: {:?}", client.number(), receipt.reply)?;
    }
    Ok(())
}

/// One run of at most eight slots, which two agents send. It prints its answer and what the wires took.
fn run<R: Print + Threads + Wait + Sync>(
    alloc: Global,
    rt: &R,
    hall: &Hall,
    driver: Driver,
    ports: u32,
) -> Result<Driver>
    requires driver { IsDriverOf hall.now driver × (driver.journal ≡ []) }
    requires ports { ports ≡ hall.now.setting.opening.table.ports }
    requires few { (1 ≤ ports) × (ports ≤ MAX_PORTS + 1) }
    ensures driver { IfOk result (IsDriverOf hall.now) }
{
    let mut wires = vec![in alloc; CountWire { sent: 0 }; ports as usize]?;
    let mut runner = Runner::new(alloc, driver, ports).ok().context("no memory")?;
    let ran = runner.slot(alloc, rt, hall, 8, 2, &mut wires);
    println!(rt; "the runner: {ran:?}")?;
    println!(rt; "the wires: {wires:?}")?;
    Ok(runner.into_driver())
}
