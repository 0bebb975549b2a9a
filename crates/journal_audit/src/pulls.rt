//! What pulls were told, beside what the master's orders tell.
ghost use Rattle.std.specs.Prelude.{◌≡◌, ◌<◌, ◌↔◌, ℕ, All, IsTrue, List, MatchOption, length, nat_eq};
ghost use Rattle.indexmap.specs.IndexMap.{get};
ghost use Rattle.journal.specs.declared.command.Entry.{Entry};
ghost use Rattle.journal.specs.declared.opening.Opening.{Opening};
ghost use Rattle.live_text.specs.declared.value.PullLine.{PullLine};
ghost use Rattle.live_text.specs.Live.{ForNeighbours, IsBefore};
ghost use Rattle.journal_audit.specs.Pulls.{HasVersion, IsFirstWrongRank, IsFirstWrongVersion, real_rank};
ghost use Rattle.journal_audit.specs.ClaimsLooked.{IsNextPull};
ghost use Rattle.journal_audit.specs.Ranks.{AreRanks};
ghost use Rattle.journal_audit.specs.Ids.{Finds};

use crate::ids::found;
use indexmap::IndexMap;
use live_text::PullLine;

/// A pull with a wrong rank: its client and its line, which count from 1, the rank that is stated, and the one that it
/// should be.
#[derive(Clone, Copy)]
pub struct WrongRank {
    pub client: u32,
    pub line: u32,
    pub stated: u32,
    pub real: u32,
}

/// The first of the stated pulls with a wrong rank, or none. `coflows` has the numbers of coflows by their ids, and
/// `ranks` for each version of a journal, from version 1 on, the ranks of coflows by their numbers.
pub fn wrong_rank(
    coflows: &IndexMap<u32, u32>,
    ranks: &[IndexMap<u32, u32>],
    pulls: &[PullLine],
) -> Option<WrongRank>
    ensures { (o : Opening) (journal : List Entry) → Finds o.table.ids (get nat_eq coflows.now) →
        AreRanks (get nat_eq) o journal ranks.now →
        MatchOption result (All (λ (p : PullLine). p.rank ≡ real_rank o journal p) pulls.now)
        (λ w. IsFirstWrongRank o journal pulls.now w.client w.line w.stated w.real) }
{
    for pull in pulls {
        let real = rank_of(coflows, ranks, *pull);
        if pull.rank != real {
            return Some(WrongRank {
                client: pull.client,
                line: pull.line,
                stated: pull.rank,
                real,
            });
        }
    }
    None
}

/// The rank that a pull should be told.
fn rank_of(coflows: &IndexMap<u32, u32>, ranks: &[IndexMap<u32, u32>], pull: PullLine) -> u32
    ensures { (o : Opening) (journal : List Entry) → Finds o.table.ids (get nat_eq coflows.now) →
        AreRanks (get nat_eq) o journal ranks.now → result ≡ real_rank o journal pull }
{
    let Some(coflow) = found(coflows, pull.id) else {
        return 0;
    };
    if pull.version == 0 || pull.version as usize > ranks.len() {
        return 0;
    }
    found(&ranks[pull.version as usize - 1], coflow).unwrap_or(0)
}

/// A pull with a version that it may not have: its client and its line, which count from 1.
#[derive(Clone, Copy)]
pub struct WrongVersion {
    pub client: u32,
    pub line: u32,
}

/// The first of the stated pulls that names a version above the newest one, an id that is no coflow's, or a lesser
/// version than the pull of the same client before; or none. `coflows` has the numbers of coflows by their ids. The
/// pulls stand by client and then by line.
pub fn wrong_version(
    coflows: &IndexMap<u32, u32>,
    newest: u32,
    pulls: &[PullLine],
) -> Option<WrongVersion>
    requires rising { ForNeighbours IsBefore pulls.now }
    ensures { (ids : List ℕ) → Finds ids (get nat_eq coflows.now) →
        MatchOption result ((k : ℕ) → k < length pulls.now → HasVersion ids newest pulls.now k)
        (λ w. IsFirstWrongVersion ids newest pulls.now w.client w.line) }
{
    for index in 0..pulls.len() {
        if !is_next_pull(coflows, newest, pulls, index) {
            return Some(WrongVersion {
                client: pulls[index].client,
                line: pulls[index].line,
            });
        }
    }
    None
}

/// Whether the pull at the index may stand behind the one before it.
fn is_next_pull(coflows: &IndexMap<u32, u32>, newest: u32, pulls: &[PullLine], index: usize) -> bool
    requires { index < length pulls.now }
    ensures { (ids : List ℕ) → Finds ids (get nat_eq coflows.now) →
        IsTrue result ↔ IsNextPull ids newest pulls.now index }
{
    let pull = pulls[index];
    if pull.version > newest {
        return false;
    }
    let Some(_) = found(coflows, pull.id) else {
        return false;
    };
    if index == 0 {
        return true;
    }
    let before = pulls[index - 1];
    if before.client == pull.client {
        return before.version <= pull.version;
    }
    true
}
