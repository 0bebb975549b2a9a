//! The line in which coflows are served.
ghost use Rattle.std.specs.Prelude.{◌≡◌, ℕ, ◌+◌, ◌<◌, ◌≤◌, ◌++◌, true, [], All, IfOk, length};
ghost use Rattle.std.specs.List.{filter};
ghost use Rattle.coflow_units.specs.declared.plan.Place.{Place};
ghost use Rattle.coflow_units.specs.Flows.{IsDistinct};
ghost use Rattle.journal.specs.State.{has};
ghost use Rattle.master_core.specs.Attendance.{marked};
ghost use Rattle.master_core.specs.Published.{ranked};
ghost use Rattle.master_core.specs.Waiting.{line_of, waits};

use crate::orders::Orders;
use crate::roster::Roster;
use coflow_units::{NoMemory, Place};
use std::alloc::Global;
use std::marker::Model;

/// The room for a line, and the line that was filled in last.
///
/// Contracts see a `Line` as the number of coflows that it has room for, and the coflows of the line, the first first.
#[derive(Drop)]
pub struct Line {
    coflows: Vec<u32>,
}

impl Model for Line {
    ghost use Rattle.std.specs.Prelude.{vec_capacity};
    ghost use Rattle.master_core.specs.Waiting.{Waiting};

    ghost Value = { Waiting };

    ghost view = { λ s. record { room = vec_capacity s.coflows; coflows = s.coflows.items } };
}

impl Line {
    /// Takes the room for so many ranked coflows and as many others.
    pub fn new(alloc: Global, coflows: u32) -> Result<Line, NoMemory>
        ensures { IfOk result (λ l. coflows + coflows ≤ l.room) }
    {
        let coflows = Vec::with_capacity(alloc, 2 * coflows as usize)?;
        Ok(Line { coflows })
    }

    /// Fills in the line: first the coflows of the newest order, then the others by joining; only those that are
    /// present.
    pub fn fill(&mut self, roster: &Roster, orders: &Orders)
        requires coflows { length roster.now.present ≡ orders.now.coflows }
        requires room { orders.now.coflows + orders.now.coflows ≤ self.old.room }
        ensures line { self.new.coflows ≡ line_of roster.now orders.now }
        ensures once { IsDistinct self.new.coflows }
        ensures coflow { All (λ c. c < length roster.now.present) self.new.coflows }
        ensures all { (coflow : ℕ) → marked roster.now.present coflow ≡ true → has self.new.coflows coflow ≡ true }
        ensures room { self.new.room ≡ self.old.room }
    {
        let places = orders.places();
        let joined = roster.joined();
        self.coflows.clear();
        self.add_ranked(places, roster);
        self.add_others(joined, roster, orders);
    }

    /// Adds the coflows of the places, only those that are present.
    fn add_ranked(&mut self, places: &[Place], roster: &Roster)
        requires coflow { All (λ (x : Place). x.coflow < length roster.now.present) places.now }
        requires room { length places.now ≤ self.old.room }
        requires empty { self.old.coflows ≡ [] }
        ensures line { self.new.coflows ≡ filter (marked roster.now.present) (ranked places.now) }
        ensures few { length self.new.coflows ≤ length places.now }
        ensures room { self.new.room ≡ self.old.room }
    {
        for place in places {
            if !roster.is_present(place.coflow) {
                continue;
            }
            self.coflows.push_reserved(place.coflow);
        }
    }

    /// Adds the coflows that joined and have no place, only those that are present.
    fn add_others(&mut self, joined: &[u32], roster: &Roster, orders: &Orders)
        requires coflows { length roster.now.present ≡ orders.now.coflows }
        requires coflow { All (λ c. c < length roster.now.present) joined.now }
        requires room { length self.old.coflows + length joined.now ≤ self.old.room }
        ensures line { self.new.coflows ≡ self.old.coflows ++
            filter (waits (ranked orders.now.places) roster.now.present) joined.now }
        ensures room { self.new.room ≡ self.old.room }
    {
        for coflow in joined {
            if orders.rank(*coflow) != 0 {
                continue;
            }
            if !roster.is_present(*coflow) {
                continue;
            }
            self.coflows.push_reserved(*coflow);
        }
    }

    /// The coflows of the line, the first first.
    pub fn coflows(&self) -> &[u32]
        ensures { result.now ≡ self.now.coflows }
    {
        &self.coflows
    }
}
