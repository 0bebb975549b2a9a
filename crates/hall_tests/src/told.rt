//! What sessions were told, and what the closed journal tells of them.
use client_session::{Receipt, Session};
use coflow_units::NoMemory;
use master_core::{Entry, Reply};

/// A receipt of a caller.
#[derive(Clone, Copy, PartialEq)]
pub struct Told {
    pub who: u32,
    pub receipt: Receipt,
}

/// Adds the receipts of sessions, one session after another. The error is want of memory.
pub fn tell(sessions: &[Session], told: &mut Vec<Told>) -> Result<(), NoMemory> {
    for session in sessions {
        tell_one(session.number(), session.receipts(), told)?;
    }
    Ok(())
}

/// Adds the receipts of a caller.
fn tell_one(who: u32, receipts: &[Receipt], told: &mut Vec<Told>) -> Result<(), NoMemory> {
    for receipt in receipts {
        let receipt = *receipt;
        told.push(Told { who, receipt })?;
    }
    Ok(())
}

/// Adds the entries of so many sessions in a journal, one session after another: what the sessions should have been
/// told. The error is want of memory.
pub fn tell_entries(
    journal: &[Entry],
    sessions: u32,
    told: &mut Vec<Told>,
) -> Result<(), NoMemory> {
    for before in 0..sessions {
        tell_entries_of(journal, before.saturating_add(1), told)?;
    }
    Ok(())
}

/// Adds the entries of a caller.
fn tell_entries_of(journal: &[Entry], who: u32, told: &mut Vec<Told>) -> Result<(), NoMemory> {
    let (mut position, mut version) = (0u32, 0);
    for entry in journal {
        position = position.saturating_add(1);
        if let Reply::Version(newest) = entry.reply {
            version = newest;
        }
        if entry.who == who {
            let reply = entry.reply;
            let receipt = Receipt {
                position,
                version,
                reply,
            };
            told.push(Told { who, receipt })?;
        }
    }
    Ok(())
}
