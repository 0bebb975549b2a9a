//! What sessions noted, and what a plain master makes of the commands of the closed journal.
ghost use Rattle.std.specs.Prelude.{◌≤◌, ◌^◌};

use crate::fault::ReplayFault;
use crate::told::Told;
use master_core::{Entry, Master, Reply};
use std::alloc::Global;
use test_support::{let_master_go, master_of_two};

/// A pull without a turn: the version and the rank that were answered, and how many receipts the caller had then. The
/// rank is 0 where the coflow had none.
#[derive(Clone, Copy)]
pub struct Note {
    pub who: u32,
    pub coflow: u32,
    pub version: u32,
    pub rank: u32,
    pub mark: usize,
}

/// A version of the journal: the position of the entry that made it, 0 for the first, and the ranks of both coflows.
#[derive(Clone, Copy)]
pub struct Version {
    position: u32,
    ranks: [u32; 2],
}

/// The versions of a journal of a hall with at most so many entries, whose commands a plain master answers alike.
pub fn versions_of(
    alloc: Global,
    journal: &[Entry],
    limit: u32,
) -> Result<Vec<Version>, ReplayFault>
    requires some { 1 ≤ limit }
    requires few { limit ≤ 2 ^ 23 }
{
    let mut versions = Vec::new(alloc);
    versions.push(Version {
        position: 0,
        ranks: [0, 0],
    })?;
    let Some(mut master) = master_of_two(alloc, limit) else {
        return Err(ReplayFault::NoMemory);
    };
    let replayed = replay(&mut master, journal, &mut versions);
    let_master_go(master);
    replayed?;
    Ok(versions)
}

/// Carries out the commands of a journal, and adds the versions that they make.
fn replay(
    master: &mut Master,
    journal: &[Entry],
    versions: &mut Vec<Version>,
) -> Result<(), ReplayFault> {
    for entry in journal {
        if !master.is_in_range(entry.command) {
            return Err(ReplayFault::OtherReply);
        }
        if master.step(entry.who, entry.command) != entry.reply {
            return Err(ReplayFault::OtherReply);
        }
        if let Reply::Version(_) = entry.reply {
            versions.push(version_of(master))?;
        }
    }
    Ok(())
}

/// The newest version of a master.
fn version_of(master: &Master) -> Version {
    let ranks = master.ranks();
    Version {
        position: master.journal().len() as u32,
        ranks: [rank_at(ranks, 0), rank_at(ranks, 1)],
    }
}

fn rank_at(ranks: &[u32], coflow: usize) -> u32 {
    match ranks.get(coflow) {
        Some(rank) => *rank,
        None => 0,
    }
}

/// Whether what was noted is true in a journal of these versions: the rank is the coflow's in the version, which is not
/// below that of an earlier receipt of the caller, and was made before each later one.
pub fn is_true(note: &Note, versions: &[Version], told: &[Told]) -> bool {
    let Some(version) = versions.get(note.version as usize) else {
        return false;
    };
    if version.ranks[(note.coflow % 2) as usize] != note.rank {
        return false;
    }
    let mut count = 0usize;
    for it in told {
        if it.who != note.who {
            continue;
        }
        if count < note.mark && it.receipt.version > note.version {
            return false;
        }
        if count >= note.mark && it.receipt.position <= version.position {
            return false;
        }
        count = count.saturating_add(1);
    }
    count >= note.mark
}
