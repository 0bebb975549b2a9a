//! The value behind the turnstile: the master, and the publisher of its ranks, whom the seats of callers meet.
ghost use Rattle.client_session.specs.Desk.{AddsEntry, IsRanked, IsSeen, KeepsLooks, MetAt, WasMet};
ghost use Rattle.client_session.specs.Grants.{TellsGrants};
ghost use Rattle.client_session.specs.Own.{look_version};
ghost use Rattle.client_session.specs.declared.receipt.Receipt.{Receipt};
ghost use Rattle.journal.specs.Answer.{IsInRange, reply_of, room};
ghost use Rattle.journal.specs.Entries.{is_driving};
ghost use Rattle.journal.specs.Fold.{state_of};
ghost use Rattle.journal.specs.Journal.{journal_after, order_in, version_of};
ghost use Rattle.journal.specs.State.{IsOpening};
ghost use Rattle.master_core.specs.Published.{TellsPlaces, ranked};
ghost use Rattle.rank_board.specs.Models.{saw_front, SeatModel};
ghost use Rattle.std.specs.Prelude.{◌≡◌, ℕ, ◌≤◌, false, true, length, [], All, Ok, Err, vec_capacity};

use crate::granted::{Granted, write_over};
use crate::receipt::Receipt;
use coflow_units::Place;
use journal::{Command, Entry, Opening, Reply};
use master_core::Master;
use rank_board::{Publisher, RankBoard, RankSeat};
use std::marker::Model;
use turnstile::Chronicle;

/// What no turn changes: what the master began with, and the board that its ranks are published on. No value of it is
/// made.
#[derive(Drop)]
pub struct Setting {
    pub opening: Opening,
    pub board: RankBoard,
}

/// The master, and the publisher of its ranks. Each version of the journal is published with its ranks before the turn
/// ends that made it.
#[derive(Drop)]
pub struct Desk {
    master: Master,
    publisher: Publisher,
}

impl Model for Desk {
    ghost use Rattle.std.specs.Prelude.{length};
    ghost use Rattle.client_session.specs.Desk.{AgreesWith, DeskModel, DrivenByRoot};

    ghost Value = { DeskModel };

    ghost view = { λ d. record {
      setting = record {
        opening = d.master.opening;
        board = record { table = d.publisher.table; coflows = length d.master.opening.table.ids };
      };
      journal = d.master.journal;
    } };

    ghost invariant = { λ d. AgreesWith d.master.opening d.master.journal d.publisher.published ×
        DrivenByRoot d.master.journal };
}

impl Chronicle for Desk {
    ghost use Rattle.journal.specs.declared.command.Entry.{Entry};

    type Entry = Entry;

    type Setting = Setting;

    ghost by = { λ (e : Entry). e.who };

    ghost entries = { λ d. d.journal };

    ghost setting = { λ d. d.setting };
}

impl Desk {
    /// A master and a publisher that have done nothing yet.
    pub fn new(master: Master, publisher: Publisher) -> Desk
        requires empty { master.journal ≡ [] }
        requires fresh { publisher.published ≡ [] }
        ensures journal { result.journal ≡ [] }
        ensures setting { result.setting ≡ record {
          opening = master.opening;
          board = record { table = publisher.table; coflows = length master.opening.table.ids };
        } }
    {
        Desk { master, publisher }
    }

    /// How many entries the journal has. It is legal, its commands are in range, and runs in it are driven by the
    /// caller 0 alone. What the master began with is within its limits.
    pub fn position(&self) -> u32
        ensures position { result ≡ length self.now.journal }
        ensures opening { IsOpening self.now.setting.opening }
        ensures seen { IsSeen self.now.setting.opening self.now.journal }
    {
        self.master.journal().len() as u32
    }

    /// Tells what is granted in the open run.
    pub fn tell_grants(&self, granted: &mut Granted)
        requires ports { granted.old.ports ≡ self.now.setting.opening.table.ports }
        ensures granted { TellsGrants self.now.setting.opening self.now.journal granted.new }
    {
        granted.tell(&self.master);
    }

    /// Makes the list the places of the newest version.
    pub fn hand_out(&self, places: &mut Vec<Place>)
        requires room { length self.now.setting.opening.table.ids ≤ vec_capacity places.old }
        ensures order { ranked places.new.items ≡
            order_in self.now.setting.opening self.now.journal (version_of self.now.journal) }
        ensures places { TellsPlaces (state_of self.now.setting.opening self.now.journal).published places.new.items }
        ensures room { vec_capacity places.new ≡ vec_capacity places.old }
    {
        write_over(self.master.places(), places);
    }

    /// The master, once the hall is closed.
    pub fn into_master(self) -> Master
        ensures opening { result.opening ≡ self.setting.opening }
        ensures journal { result.journal ≡ self.journal }
        ensures seen { IsSeen self.setting.opening self.journal }
    {
        let Desk {
            master,
            publisher: _,
        } = self;
        let _journal = master.journal();
        master
    }

    /// Carries out a command of a caller whose seat at the board is this one, and publishes the version that it makes.
    /// The seat meets the publisher before a publishing, and after each command that adds an entry.
    ///
    /// The error is that the journal has no room: it has so many entries.
    pub fn answer(
        &mut self,
        board: &RankBoard,
        seat: &mut RankSeat,
        who: u32,
        command: Command,
    ) -> Result<Receipt, u32>
        requires board { self.old.setting.board ≡ board.now }
        requires seat { seat.old.table ≡ board.now.table }
        requires range { IsInRange self.old.setting.opening command }
        requires caller { is_driving command ≡ false }
        ensures setting { self.new.setting ≡ self.old.setting }
        ensures entry { (r : Receipt) → result ≡ Ok r → AddsEntry self.old.journal self.new.journal who command r }
        ensures met { (r : Receipt) → result ≡ Ok r → MetAt self.old.journal self.new.journal seat.old seat.new }
        ensures full { (n : ℕ) → result ≡ Err n → (self.new.journal ≡ self.old.journal) ×
            (n ≡ length self.old.journal) × (self.old.setting.opening.limit ≤ n) }
        ensures seat { (seat.new.table ≡ seat.old.table) × (seat.new.id ≡ seat.old.id) ×
            (seat.new.pulls ≡ seat.old.pulls) × KeepsLooks seat.old seat.new × (seat.old.seen ≤ seat.new.seen) }
    {
        if let Command::Publish = command {
            self.meet(board, seat);
        }
        let reply = self.step(board, who, command);
        if let Reply::Full(entries) = reply {
            return Err(entries);
        }
        self.meet(board, seat);
        Ok(Receipt {
            position: self.position(),
            version: self.master.version(),
            reply,
        })
    }

    /// Carries out a command of the caller 0, and publishes the version that it makes.
    ///
    /// The error is that the journal has no room: it has so many entries.
    pub fn drive(&mut self, board: &RankBoard, command: Command) -> Result<Receipt, u32>
        requires board { self.old.setting.board ≡ board.now }
        requires range { IsInRange self.old.setting.opening command }
        ensures setting { self.new.setting ≡ self.old.setting }
        ensures entry { (r : Receipt) → result ≡ Ok r → AddsEntry self.old.journal self.new.journal 0 command r }
        ensures full { (n : ℕ) → result ≡ Err n → (self.new.journal ≡ self.old.journal) ×
            (n ≡ length self.old.journal) × (room self.old.setting.opening command ≤ n) }
    {
        let reply = self.step(board, 0, command);
        if let Reply::Full(entries) = reply {
            return Err(entries);
        }
        Ok(Receipt {
            position: self.position(),
            version: self.master.version(),
            reply,
        })
    }

    /// Carries out a command of a caller, and publishes the version that it makes. The caller of runs is the one of
    /// number 0.
    pub fn step(&mut self, board: &RankBoard, who: u32, command: Command) -> Reply
        requires board { self.old.setting.board ≡ board.now }
        requires range { IsInRange self.old.setting.opening command }
        requires caller { is_driving command ≡ true → who ≡ 0 }
        ensures setting { self.new.setting ≡ self.old.setting }
        ensures reply { result ≡ reply_of self.old.setting.opening self.old.journal command }
        ensures journal { self.new.journal ≡ journal_after self.old.setting.opening self.old.journal who command }
    {
        let _few = self.master.journal();
        let reply = self.master.step(who, command);
        if let Reply::Version(_) = reply {
            board.publish(&mut self.publisher, self.master.ranks());
        }
        reply
    }

    /// A seat of the board meets the publisher: it has then seen the newest version, and so has each word that it
    /// loaded. Its noted pulls have the ranks of their versions.
    pub fn meet(&mut self, board: &RankBoard, seat: &mut RankSeat)
        requires board { self.old.setting.board ≡ board.now }
        requires seat { seat.old.table ≡ board.now.table }
        ensures desk { self.new ≡ self.old }
        ensures seat { seat.new ≡ saw_front (version_of self.old.journal) seat.old }
        ensures seen { seat.old.seen ≤ version_of self.old.journal }
        ensures looks { All (λ look. look_version look ≤ version_of self.old.journal) seat.new.looks }
        ensures pulls { All (IsRanked self.old.setting.opening self.old.journal) seat.new.pulls }
    {
        board.meet(&mut self.publisher, seat);
    }
}

/// Lets each seat of the board meet the publisher.
pub fn meet_all(board: &RankBoard, desk: &mut Desk, ranks: Vec<RankSeat>)
    requires board { desk.old.setting.board ≡ board.now }
    requires ranks { All (λ (r : SeatModel). r.table ≡ board.now.table) ranks.items }
    ensures desk { desk.new ≡ desk.old }
    ensures met { All (WasMet desk.old.setting.opening desk.old.journal) ranks.items }
{
    for mut rank in ranks {
        desk.meet(board, &mut rank);
    }
}
