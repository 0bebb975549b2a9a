//! Prints what masters and worlds tell.
use journal::{Credit, CreditedRun};
use master_core::Master;
use std::io;
use world_model::World;

/// Prints what a master tells, but for its journal.
pub(crate) fn tell_master(rt: &HostRuntime, master: &Master) -> io::Result<()> {
    tell_order(rt, master)?;
    tell_run(rt, master)?;
    tell_coflows(rt, master)?;
    tell_flows(rt, master)?;
    tell_ports(rt, master)
}

fn tell_order(rt: &HostRuntime, master: &Master) -> io::Result<()> {
    println!(rt; "version {}", master.version())?;
    println!(rt; "places {:?}", master.places())?;
    println!(rt; "ranks {:?}", master.ranks())
}

fn tell_run(rt: &HostRuntime, master: &Master) -> io::Result<()> {
    println!(rt;
        "next {} open {:?}",
        master.next_slot(),
        master.open_slots()
    )?;
    println!(rt; "granted {:?}", master.granted_flows())
}

fn tell_coflows(rt: &HostRuntime, master: &Master) -> io::Result<()> {
    for coflow in 0..master.table().coflows() {
        println!(rt;
            "coflow {} rank {} weight {}",
            coflow,
            master.rank(coflow),
            master.weight(coflow)
        )?;
    }
    Ok(())
}

fn tell_flows(rt: &HostRuntime, master: &Master) -> io::Result<()> {
    for flow in 0..master.table().flows().len() as u32 {
        println!(rt; "flow {} owes {}", flow, master.owed(flow))?;
    }
    Ok(())
}

fn tell_ports(rt: &HostRuntime, master: &Master) -> io::Result<()> {
    for port in 0..master.table().ports() {
        println!(rt;
            "ingress {} granted {:?} noted {:?}",
            port,
            master.granted(port),
            master.noted(port)
        )?;
    }
    Ok(())
}

/// Prints closed runs: the first slot and the number of slots of each, and what it credits to each flow that it
/// granted.
pub(crate) fn tell_closed(rt: &HostRuntime, runs: &[CreditedRun]) -> io::Result<()> {
    for run in runs {
        println!(rt; "closed {} {}", run.first, run.slots)?;
        tell_credits(rt, run.credits.as_slice())?;
    }
    Ok(())
}

fn tell_credits(rt: &HostRuntime, credits: &[Credit]) -> io::Result<()> {
    for credit in credits {
        println!(rt;
            "credit {} {} {}",
            credit.flow, credit.ingress, credit.units
        )?;
    }
    Ok(())
}

/// Prints the entries of a master's journal.
pub(crate) fn tell_journal(rt: &HostRuntime, master: &Master) -> io::Result<()> {
    for entry in master.journal() {
        println!(rt; "entry {} {:?} {:?}", entry.who, entry.command, entry.reply)?;
    }
    Ok(())
}

/// Prints what a world tells, but for the journal and the runs that were sent.
pub(crate) fn tell_world(rt: &HostRuntime, world: &World) -> io::Result<()> {
    tell_master(rt, world.master())?;
    println!(rt; "agents {}", world.agents())?;
    for port in 0..world.master().table().ports() {
        println!(rt; "port {} {:?}", port, world.port(port))?;
    }
    Ok(())
}

/// Prints the runs that the agents of a world sent.
pub(crate) fn tell_sent(rt: &HostRuntime, world: &World) -> io::Result<()> {
    for run in world.sent() {
        println!(rt; "{:?}", run)?;
    }
    Ok(())
}
