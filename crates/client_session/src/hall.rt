//! The hall, where clients take turns at one master and read its ranks.
ghost use Rattle.std.specs.Prelude.{◌≡◌, ℕ, ◌+◌, ◌^◌, ◌<◌, ◌≤◌, if◌then◌else◌, All, length, nat_lt, [], IfOk, OnOk, OnErr, Some};
ghost use Rattle.journal.specs.State.{IsOpening};
ghost use Rattle.client_session.specs.Models.{IsDriverOf, IsSessionOf};
ghost use Rattle.client_session.specs.Levels.{IsLevel, IsMetByEach, IsMetByOne};
ghost use Rattle.client_session.specs.Halls.{IsFirstDriver, IsNewSession};

use crate::desk::Desk;
use crate::driver::Driver;
use crate::granted::first_parts;
use crate::session::Session;
use coflow_units::NoMemory;
use master_core::Master;
use rank_board::{RankBoard, RankSeat};
use std::alloc::Global;
use std::marker::Model;
use turnstile::Turnstile;

/// A master that any number of sessions ask in turns, and the board on which its ranks are read without waiting.
///
/// Contracts see which hall it is, and what no call changes: the opening of its master, and its board.
pub struct Hall {
    pub(crate) gate: Turnstile<Desk>,
    pub(crate) board: RankBoard,
}

// Written out, since a derived one is proved anew, with those of all that it holds, in each crate that drops such a value.
impl Drop for Hall {
    fn drop(self) {
        let Hall { gate: _, board: _ } = self;
    }
}

impl Model for Hall {
    ghost use Rattle.std.specs.Prelude.{◌≡◌, length};
    ghost use Rattle.journal.specs.State.{IsOpening};
    ghost use Rattle.client_session.specs.Models.{HallModel};

    ghost Value = { HallModel };

    ghost view = { λ h. record { gate = h.gate.table; setting = h.gate.setting } };

    ghost invariant = { λ h. (h.gate.setting.board ≡ h.board) ×
        (h.gate.setting.board.coflows ≡ length h.gate.setting.opening.table.ids) × IsOpening h.gate.setting.opening };
}

impl Hall {
    /// Puts a master without entries into a new hall, and makes its driver, which may take so many turns.
    ///
    /// The error is want of memory, and drops the master.
    pub fn begin(
        alloc: Global,
        master: Master,
        driver_calls: u64,
    ) -> Result<(Hall, Driver), NoMemory>
        requires empty { master.journal ≡ [] }
        requires few { driver_calls ≤ 2 ^ 40 }
        ensures opening { IfOk result (λ made. made.0.setting.opening ≡ master.opening) }
        ensures driver { IfOk result (λ made. IsFirstDriver made.0 driver_calls made.1) }
    {
        let (ports, coflows) = (master.table().ports(), master.table().coflows());
        let Ok(parts) = first_parts(alloc, ports, coflows) else {
            drop(master);
            return Err(NoMemory);
        };
        let (mut granted, board, publisher, rank) = parts;
        let desk = Desk::new(master, publisher);
        desk.tell_grants(&mut granted);
        let _none = desk.position();
        let Ok((gate, root)) = Turnstile::new(alloc, desk) else {
            drop(granted);
            drop(board);
            drop(rank);
            return Err(NoMemory);
        };
        let hall = Hall { gate, board };
        let driver = Driver {
            root,
            rank,
            left: driver_calls,
            turned: 0,
            position: 0,
            granted,
        };
        Ok((hall, driver))
    }

    /// How many coflows the table of the hall's master has. What that master began with is within its limits.
    pub fn coflows(&self) -> u32
        ensures coflows { result ≡ length self.now.setting.opening.table.ids }
        ensures opening { IsOpening self.now.setting.opening }
    {
        self.board.coflows()
    }

    /// Makes a session with the next number, from 1 on, which may take so many turns. It has seen as long a journal as
    /// the driver has seen, and has no entries. A driver makes at most 2^16 sessions.
    ///
    /// The error is want of memory for the session's receipts, and the driver is as before.
    pub fn session(
        &self,
        alloc: Global,
        driver: &mut Driver,
        calls: u32,
    ) -> Result<Session, NoMemory>
        requires own { IsDriverOf self.now driver.old }
        requires room { driver.old.made < 2 ^ 16 }
        ensures session { IfOk result (λ s. IsNewSession self.now driver.old calls s) }
        ensures counted { OnOk result (driver.new ≡ record driver.old { made = driver.old.made + 1 }) }
        ensures refused { OnErr result (driver.new ≡ driver.old) }
    {
        let receipts = Vec::with_capacity(alloc, calls as usize)?;
        let seat = self.gate.seat(&mut driver.root);
        Ok(Session {
            seat,
            rank: self.board.seat(&mut driver.rank),
            number: driver.root.made(),
            left: calls,
            position: driver.position,
            receipts,
        })
    }

    /// Lets the driver and these sessions see what any of them has seen: each has then seen the longest journal that
    /// one of them had seen, and each session a version that is not below one that a session had seen. It waits for
    /// nobody, and takes no memory.
    pub fn level(&self, driver: &mut Driver, sessions: &mut [Session])
        requires driver { IsDriverOf self.now driver.old }
        requires sessions { All (IsSessionOf self.now) sessions.old }
        ensures level { IsLevel driver.old driver.new sessions.old sessions.new }
    {
        let mut heard = self.board.seat(&mut driver.rank);
        self.meet_each(driver, &mut heard, sessions);
        self.meet_each(driver, &mut heard, sessions);
    }

    // What is left of a hall that ends: its turnstile and its board.
    pub(crate) fn into_parts(self) -> (Turnstile<Desk>, RankBoard)
        ensures gate { (result.0.table ≡ self.gate) × (result.0.setting ≡ self.setting) }
        ensures board { result.1 ≡ self.setting.board }
        ensures coflows { self.setting.board.coflows ≡ length self.setting.opening.table.ids }
    {
        let Hall { gate, board } = self;
        (gate, board)
    }

    // The driver meets each session in turn, and so does a seat that hears their versions.
    fn meet_each(&self, driver: &mut Driver, heard: &mut RankSeat, sessions: &mut [Session])
        requires driver { IsDriverOf self.now driver.old }
        requires board { heard.old.table ≡ self.now.setting.board.table }
        requires sessions { All (IsSessionOf self.now) sessions.old }
        ensures met { IsMetByEach driver.old driver.new heard.old heard.new sessions.old sessions.new }
    {
        for session in sessions.iter_mut() {
            self.meet_one(driver, heard, session);
        }
    }

    // The driver meets a session, and so does a seat that hears its version.
    fn meet_one(&self, driver: &mut Driver, heard: &mut RankSeat, session: &mut Session)
        requires driver { IsDriverOf self.now driver.old }
        requires board { heard.old.table ≡ self.now.setting.board.table }
        requires session { IsSessionOf self.now session.old }
        ensures met { IsMetByOne driver.old driver.new heard.old heard.new session.old session.new }
    {
        self.gate.meet(&mut driver.root, &mut session.seat);
        let position = greater(driver.position, session.position);
        driver.position = position;
        session.position = position;
        self.board.tell(&mut session.rank, heard);
        self.board.tell(heard, &mut session.rank);
    }
}

// The greater of two numbers.
fn greater(one: u32, other: u32) -> u32
    ensures { result ≡ (if nat_lt one other then other else one) }
{
    if one < other { other } else { one }
}
