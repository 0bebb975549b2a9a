//! What is printed of a game.
use crate::callers::{Client, Said, Size};
use crate::game::Mode;
use crate::seats::CLIENTS;
use crate::stop::Stop;
use master_core::Master;
use std::io;
use std::time::Duration;

/// Prints what the mode asks of a closed hall: its journal, how long its callers took, or how many entries it has.
pub fn tell_end(
    rt: &impl Print,
    master: &Master,
    size: Size,
    mode: Mode,
    took: io::Result<Duration>,
) -> Result<(), Stop> {
    let took = took?;
    match mode {
        Mode::Tell => tell_journal(rt, master)?,
        Mode::Time => println!(rt; "nanoseconds {}", took.as_nanos())?,
        _ => println!(rt;
            "commands {} entries {}",
            u64::from(size.commands) * u64::from(CLIENTS + 1),
            master.journal().len()
        )?,
    }
    Ok(())
}

/// Prints what the driver and each client were told.
pub fn tell_said(rt: &impl Print, pilot: &[Said], clients: &[Client]) -> io::Result<()> {
    tell_caller(rt, 0, pilot)?;
    for client in clients {
        tell_caller(rt, client.session.number(), &client.said)?;
    }
    Ok(())
}

/// Prints what a caller was told.
fn tell_caller(rt: &impl Print, number: u32, said: &[Said]) -> io::Result<()> {
    for it in said {
        println!(rt; "{number} {it:?}")?;
    }
    Ok(())
}

/// Prints the entries of the journal.
fn tell_journal(rt: &impl Print, master: &Master) -> io::Result<()> {
    for entry in master.journal() {
        println!(rt; "entry {} {:?} {:?}", entry.who, entry.command, entry.reply)?;
    }
    Ok(())
}
