//! A client of the hall.
ghost use Rattle.std.specs.Prelude.{◌≡◌, ℕ, ◌+◌, ◌^◌, ◌<◌, ◌≤◌, false, length, map, [], Some};
ghost use Rattle.coflow_units.specs.declared.limits.TheConstants.{MAX_WEIGHT};
ghost use Rattle.journal.specs.Answer.{IsInRange};
ghost use Rattle.journal.specs.Entries.{is_driving};
ghost use Rattle.journal.specs.declared.command.Command.TheVariants.{Publish, Pull, Register, Reweigh, Withdraw};
ghost use Rattle.rank_board.specs.Models.{FoundAnother, pulled, saw_front, SeatModel};
ghost use Rattle.client_session.specs.Models.{IsSessionOf};
ghost use Rattle.client_session.specs.Own.{IsPass, receipt_of};
ghost use Rattle.client_session.specs.Returns.{IsSeatOf, KeepsNotes};
ghost use Rattle.client_session.specs.Turns.{IsTurn};

use crate::desk::Desk;
use crate::hall::Hall;
use crate::receipt::{Answer, Receipt, is_spent};
use journal::Command;
use rank_board::{Pulled, RankSeat};
use std::marker::Model;
use std::sync::Wait;
use turnstile::TurnSeat;

/// A client of a hall. Its turn calls wait until it is served, add an entry to the journal, and are answered by a
/// receipt; its pulls never wait.
///
/// Contracts see which hall it is of, its number, how many of its turn calls are left, how long a journal it has seen,
/// its own entries, and its seat at the board of ranks. A session that is dropped never comes back to its hall.
pub struct Session {
    pub(crate) seat: TurnSeat<Desk>,
    pub(crate) rank: RankSeat,
    pub(crate) number: u32,
    pub(crate) left: u32,
    pub(crate) position: u32,
    pub(crate) receipts: Vec<Receipt>,
}

// Written out, since a derived one is proved anew, with those of all that it holds, in each crate that drops such a value.
impl Drop for Session {
    fn drop(self) {
        let Session {
            seat: _,
            rank: _,
            number: _,
            left: _,
            position: _,
            receipts: _,
        } = self;
    }
}

impl Model for Session {
    ghost use Rattle.std.specs.Prelude.{vec_capacity};
    ghost use Rattle.client_session.specs.Models.{SessionModel};
    ghost use Rattle.client_session.specs.Own.{own_entries};
    ghost use Rattle.client_session.specs.Turns.{IsSession};

    ghost Value = { SessionModel };

    ghost view = { λ s. record {
      gate = s.seat.table;
      setting = s.seat.setting;
      number = s.number;
      left = s.left;
      position = s.position;
      own = own_entries s.number s.seat.seen;
      rank = s.rank;
    } };

    ghost invariant = { λ s. IsSession s.seat s.rank s.number s.left s.position s.receipts.items
        (vec_capacity s.receipts) };
}

impl Session {
    /// The number of the session, from 1 on: its entries have it in the journal.
    pub fn number(&self) -> u32
        ensures { result ≡ self.now.number }
    {
        self.number
    }

    /// How many of its turn calls are left.
    pub fn calls_left(&self) -> u32
        ensures { result ≡ self.now.left }
    {
        self.left
    }

    /// The greatest position that the session has seen: the length of the longest journal.
    pub fn seen_position(&self) -> u32
        ensures { result ≡ self.now.position }
    {
        self.position
    }

    /// The greatest version that the session has seen.
    pub fn seen_version(&self) -> u32
        ensures { result ≡ self.now.rank.seen }
    {
        self.rank.seen()
    }

    /// The receipts of the session's turns, in their order. What it noted stands between them: a noted pull has no
    /// version below those of the receipts that were there, as many as its mark, and its version was there before each
    /// later one.
    pub fn receipts(&self) -> &[Receipt]
        ensures receipts { result.now ≡ map receipt_of self.now.own }
        ensures pass { IsPass self.now.own self.now.rank.pulls self.now.rank.seen }
    {
        &self.receipts
    }

    /// Asks that the coflow joins. It takes one turn, which may wait, and no memory.
    pub fn register<R: Wait>(&mut self, rt: &R, hall: &Hall, coflow: u32) -> Answer
        requires own { IsSessionOf hall.now self.old }
        requires coflow { coflow < length hall.now.setting.opening.table.ids }
        ensures turn { IsTurn hall.now.setting.opening (Register coflow) self.old self.new result }
    {
        self.ask(rt, hall, Command::Register(coflow))
    }

    /// Asks that the coflow leaves, as `register` asks that it joins.
    pub fn withdraw<R: Wait>(&mut self, rt: &R, hall: &Hall, coflow: u32) -> Answer
        requires own { IsSessionOf hall.now self.old }
        requires coflow { coflow < length hall.now.setting.opening.table.ids }
        ensures turn { IsTurn hall.now.setting.opening (Withdraw coflow) self.old self.new result }
    {
        self.ask(rt, hall, Command::Withdraw(coflow))
    }

    /// Asks that the present coflows are ordered anew. The new ranks stand on the board before the turn ends. It takes
    /// one turn, which may wait, and no memory.
    pub fn publish<R: Wait>(&mut self, rt: &R, hall: &Hall) -> Answer
        requires own { IsSessionOf hall.now self.old }
        ensures turn { IsTurn hall.now.setting.opening Publish self.old self.new result }
    {
        self.ask(rt, hall, Command::Publish)
    }

    /// Asks for the coflow's place in the newest order. It takes one turn, which may wait, and no memory; `pull` reads
    /// it without one.
    pub fn pull_turn<R: Wait>(&mut self, rt: &R, hall: &Hall, coflow: u32) -> Answer
        requires own { IsSessionOf hall.now self.old }
        requires coflow { coflow < length hall.now.setting.opening.table.ids }
        ensures turn { IsTurn hall.now.setting.opening (Pull coflow) self.old self.new result }
    {
        self.ask(rt, hall, Command::Pull(coflow))
    }

    /// Asks that the coflow gets another weight, from 1 to 2^32, which the next order takes. It takes one turn, which
    /// may wait, and no memory.
    pub fn reweigh<R: Wait>(&mut self, rt: &R, hall: &Hall, coflow: u32, weight: u64) -> Answer
        requires own { IsSessionOf hall.now self.old }
        requires coflow { coflow < length hall.now.setting.opening.table.ids }
        requires weight { (1 ≤ weight) × (weight ≤ MAX_WEIGHT) }
        ensures turn { IsTurn hall.now.setting.opening (Reweigh coflow weight) self.old self.new result }
    {
        self.ask(rt, hall, Command::Reweigh { coflow, weight })
    }

    /// Reads the coflow's place in the newest order from the board, without waiting and without memory. The session
    /// notes what it read, with the number of its receipts as the mark.
    ///
    /// `Rank` and `Unranked` have the version that the front had in this call. `Unranked` comes exactly where that is
    /// 0, or the rank word that was loaded has that version and rank 0. `Moved` comes only where the rank word that was
    /// loaded in this call has a version at least two above that of the front; nothing is noted then. What a noted pull
    /// says is told where the hall closes.
    pub fn pull(&mut self, hall: &Hall, coflow: u32) -> Pulled
        requires own { IsSessionOf hall.now self.old }
        requires coflow { coflow < length hall.now.setting.opening.table.ids }
        ensures later { self.old.rank.seen ≤ self.new.rank.seen }
        ensures board { self.new.rank.table ≡ self.old.rank.table }
        ensures rest { self.new ≡ record self.old { rank = self.new.rank } }
        ensures rank { (version rank : ℕ) → result ≡ Pulled.Rank version rank → (1 ≤ version) × (1 ≤ rank) ×
            (self.new.rank ≡ pulled version coflow rank (length self.old.own) self.old.rank) }
        ensures unranked { (version : ℕ) → result ≡ Pulled.Unranked version →
            self.new.rank ≡ pulled version coflow 0 (length self.old.own) self.old.rank }
        ensures moved { (front found : ℕ) → result ≡ Pulled.Moved front found → (1 ≤ front) × (front + 2 ≤ found) ×
            FoundAnother front coflow found (saw_front front self.old.rank) self.new.rank }
    {
        hall.board
            .pull(&mut self.rank, coflow, self.receipts.len() as u32)
    }

    // What is left of a session that ends: its seat at the turnstile, and the one at the board.
    pub(crate) fn into_seats(self) -> (TurnSeat<Desk>, RankSeat)
        ensures seat { IsSeatOf self result.0 }
        ensures rank { result.1 ≡ self.rank }
        ensures notes { KeepsNotes self }
    {
        let Session {
            seat,
            rank,
            number: _,
            left: _,
            position: _,
            receipts: _,
        } = self;
        (seat, rank)
    }

    // Takes a turn for a command that every caller may ask.
    fn ask<R: Wait>(&mut self, rt: &R, hall: &Hall, command: Command) -> Answer
        requires own { IsSessionOf hall.now self.old }
        requires range { IsInRange hall.now.setting.opening command }
        requires kind { is_driving command ≡ false }
        ensures turn { IsTurn hall.now.setting.opening command self.old self.new result }
    {
        if is_spent(self.left as u64, 1) {
            return Answer::Spent;
        }
        let mut turn = hall.gate.enter(rt, &mut self.seat);
        let answer = turn
            .value
            .answer(&hall.board, &mut self.rank, self.number, command);
        self.position = turn.value.position();
        hall.gate.leave(&mut self.seat, turn);
        self.left -= 1;
        match answer {
            Ok(receipt) => {
                self.receipts.push_reserved(receipt);
                Answer::Done(receipt)
            }
            Err(entries) => Answer::Full(entries),
        }
    }
}
