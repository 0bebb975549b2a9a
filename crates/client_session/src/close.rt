//! How a hall ends.
ghost use Rattle.std.specs.Prelude.{◌≡◌, ◌<◌, ◌≤◌, length, [], All, IfErr, IfOk, map, vec_capacity, vec_len};
ghost use Rattle.rank_board.specs.Models.{SeatModel};
ghost use Rattle.turnstile.specs.Histories.{GoesOn};
ghost use Rattle.client_session.specs.Closes.{IsClosed, IsLeftOpen, IsMissing};
ghost use Rattle.client_session.specs.Drivers.{who_of};
ghost use Rattle.client_session.specs.Models.{IsDriverOf, IsSessionOf, SessionModel};
ghost use Rattle.client_session.specs.Returns.{AreReturned};

use crate::desk::{Desk, meet_all};
use crate::driver::Driver;
use crate::hall::Hall;
use crate::session::Session;
use master_core::Master;
use rank_board::RankSeat;
use std::alloc::Global;
use std::marker::Model;
use turnstile::{Root, Turnstile};

/// Why a hall stays open.
#[derive(Drop)]
pub enum CloseFault {
    /// Fewer sessions are given than were made. All is handed back as it was.
    Missing {
        /// How many sessions the driver has made.
        made: u32,
        /// How many are given.
        given: u32,
        hall: Hall,
        driver: Driver,
        sessions: Vec<Session>,
    },
    /// There is no memory. The sessions have ended, and the close may be tried again.
    NoMemory(Closing),
}

/// A hall that is to close, with its driver and all of its sessions, which have ended: they can take no more turns.
///
/// Contracts see the hall, the driver and the sessions, as they were given.
pub struct Closing {
    hall: Hall,
    driver: Driver,
    sessions: Vec<Session>,
}

// Written out, since a derived one is proved anew, with those of all that it holds, in each crate that drops such a value.
impl Drop for Closing {
    fn drop(self) {
        let Closing {
            hall: _,
            driver: _,
            sessions: _,
        } = self;
    }
}

impl Model for Closing {
    ghost use Rattle.client_session.specs.Models.{ClosingModel, MayClose};

    ghost Value = { ClosingModel };

    ghost view = { λ c. record { hall = c.hall; driver = c.driver; sessions = c.sessions.items } };

    ghost invariant = { λ c. MayClose (record { hall = c.hall; driver = c.driver; sessions = c.sessions.items }) };
}

impl Hall {
    /// Ends the hall, once all of its sessions are given, and hands back its master. It waits for nobody.
    ///
    /// The error is that fewer sessions are given than the driver made, and then all is handed back; or want of memory,
    /// with which the close may be tried again.
    pub fn close(
        self,
        alloc: Global,
        driver: Driver,
        sessions: Vec<Session>,
    ) -> Result<Master, CloseFault>
        requires driver { IsDriverOf self driver }
        requires sessions { All (IsSessionOf self) sessions.items }
        ensures closed { IfOk result (IsClosed self driver sessions.items) }
        ensures refused { IfErr result (IsLeftOpen self driver sessions.items) }
        ensures missing { length sessions.items < driver.made → IsMissing result }
    {
        let made = driver.made();
        let given = sessions.len();
        if given < made as usize {
            return Err(CloseFault::Missing {
                made,
                given: given as u32,
                hall: self,
                driver,
                sessions,
            });
        }
        let closing = Closing {
            hall: self,
            driver,
            sessions,
        };
        match closing.again(alloc) {
            Ok(master) => Ok(master),
            Err(closing) => Err(CloseFault::NoMemory(closing)),
        }
    }
}

impl Closing {
    /// Tries again to end the hall. The error is want of memory, and changes nothing.
    pub fn again(self, alloc: Global) -> Result<Master, Closing>
        ensures closed { IfOk result (IsClosed self.hall self.driver self.sessions) }
        ensures refused { IfErr result (λ closing. closing ≡ self) }
    {
        let Ok(mut ranks) = Vec::with_capacity(alloc, self.sessions.len()) else {
            return Err(self);
        };
        let Closing {
            hall,
            driver,
            sessions,
        } = self;
        let (gate, board) = hall.into_parts();
        let mut root = driver.into_root();
        rejoin_all(&gate, &mut root, sessions, &mut ranks);
        let Ok(mut desk) = gate.close(root) else {
            unreachable!()
        };
        meet_all(&board, &mut desk, ranks);
        Ok(desk.into_master())
    }
}

// Takes the seats of all sessions back, and keeps their seats at the board, for which there is room.
fn rejoin_all(
    gate: &Turnstile<Desk>,
    root: &mut Root<Desk>,
    sessions: Vec<Session>,
    ranks: &mut Vec<RankSeat>,
)
    requires own { root.old.table ≡ gate.now.table }
    requires sessions { All (λ (s : SessionModel). s.gate ≡ gate.now.table) sessions.items }
    requires none_back { root.old.back ≡ [] }
    requires empty { ranks.old.items ≡ [] }
    requires room { vec_len sessions ≤ vec_capacity ranks.old }
    ensures root { root.new ≡ record root.old { seen = root.new.seen; back = root.new.back } }
    ensures own_entries { GoesOn who_of root.new.seen 0 root.old.seen }
    ensures back { AreReturned sessions.items root.new.back }
    ensures few { length root.new.back ≤ root.new.made }
    ensures ranks { ranks.new.items ≡ map (λ (s : SessionModel). s.rank) sessions.items }
{
    for session in sessions {
        let (seat, rank) = session.into_seats();
        gate.rejoin(root, seat);
        ranks.push_reserved(rank);
    }
}
