//! The first caller of a hall.
ghost use Rattle.std.specs.Prelude.{◌≡◌, ℕ, ◌+◌, ◌-◌, ◌<◌, ◌≤◌, true, false, length, map, None, Some, Ok, Err, vec_capacity};
ghost use Rattle.coflow_units.specs.Flows.{ingress_of};
ghost use Rattle.journal.specs.Answer.{IsInRange};
ghost use Rattle.journal.specs.declared.command.Command.TheVariants.{Close, Open, Publish, Register, Short, Skip, Withdraw};
ghost use Rattle.turnstile.specs.Histories.{NoneAbove};
ghost use Rattle.client_session.specs.declared.desk.Setting.{Setting};
ghost use Rattle.client_session.specs.Desk.{IsSeen};
ghost use Rattle.client_session.specs.Models.{IsDriverOf};
ghost use Rattle.client_session.specs.Grants.{all_granted, flow_granted};
ghost use Rattle.client_session.specs.Drivers.{HandsOut, IsDriverTurn, who_of};
ghost use Rattle.client_session.specs.Returns.{IsRootOf};

use crate::desk::Desk;
use crate::granted::Granted;
use crate::hall::Hall;
use crate::receipt::{Answer, is_spent, is_version};
use crate::turn::end_turn;
use coflow_units::Place;
use journal::{Command, Reply};
use rank_board::RankSeat;
use std::marker::Model;
use std::sync::Wait;
use turnstile::Root;

/// The first caller of a hall, whose number is 0. It makes the sessions, and it alone opens and closes runs.
///
/// Contracts see which hall it is of, how many sessions it made, how many of its calls are left, the journal as it was
/// at the end of its last turn, and how long a journal it has seen. Its entries are those of number 0 in that journal.
pub struct Driver {
    pub(crate) root: Root<Desk>,
    pub(crate) rank: RankSeat,
    pub(crate) left: u64,
    pub(crate) turned: u32,
    pub(crate) position: u32,
    /// What is granted in the open run of that journal.
    pub(crate) granted: Granted,
}

// Written out, since a derived one is proved anew, with those of all that it holds, in each crate that drops such a value.
impl Drop for Driver {
    fn drop(self) {
        let Driver {
            root: _,
            rank: _,
            left: _,
            turned: _,
            position: _,
            granted: _,
        } = self;
    }
}

impl Model for Driver {
    ghost use Rattle.std.specs.Prelude.{take};
    ghost use Rattle.client_session.specs.Models.{DriverModel};
    ghost use Rattle.client_session.specs.Drivers.{IsDriver};

    ghost Value = { DriverModel };

    ghost view = { λ d. record {
      gate = d.root.table;
      setting = d.root.setting;
      rank = d.rank;
      made = d.root.made;
      left = d.left;
      journal = take d.turned d.root.seen;
      position = d.position;
    } };

    ghost invariant = { λ d. IsDriver d.root d.turned d.position d.granted };
}

impl Driver {
    /// How many sessions the driver has made. In the journal that it has seen no entry has a greater number; that
    /// journal is legal, and runs in it are driven by the driver alone.
    pub fn made(&self) -> u32
        ensures made { result ≡ self.now.made }
        ensures numbers { NoneAbove who_of self.now.made self.now.journal }
        ensures seen { (c : Setting) → self.now.setting ≡ Some c → IsSeen c.opening self.now.journal }
    {
        self.root.made()
    }

    /// How many of its calls are left.
    pub fn calls_left(&self) -> u64
        ensures { result ≡ self.now.left }
    {
        self.left
    }

    /// The flow that is granted at an ingress in the open run of the journal that the driver has seen. `None` comes
    /// exactly where no run is open in it, or the ingress has no grant there.
    pub fn granted(&self, ingress: u32) -> Option<u32>
        ensures { (c : Setting) → self.now.setting ≡ Some c → ingress < c.opening.table.ports →
            result ≡ flow_granted c.opening self.now.journal ingress }
    {
        self.granted.at(ingress)
    }

    /// The flows that are granted in the open run of the journal that the driver has seen, by number. There are none
    /// where no run is open in it.
    pub fn granted_flows(&self) -> &[u32]
        ensures { (c : Setting) → self.now.setting ≡ Some c → result.now ≡ all_granted c.opening self.now.journal }
    {
        self.granted.flows()
    }

    /// The ingress ports of those flows, in the order of the flows.
    pub fn granted_ports(&self) -> &[u32]
        ensures { (c : Setting) → self.now.setting ≡ Some c →
            result.now ≡ map (ingress_of c.opening.table.flows) (all_granted c.opening self.now.journal) }
    {
        self.granted.ingresses()
    }

    /// Makes the list the flows that are granted in the open run of the journal that the driver has seen, by number.
    /// There are none where no run is open in it. There is room for a flow of each port.
    pub fn list_granted(&self, hall: &Hall, flows: &mut Vec<u32>)
        requires own { IsDriverOf hall.now self.now }
        requires room { hall.now.setting.opening.table.ports ≤ vec_capacity flows.old }
        ensures flows { flows.new.items ≡ all_granted hall.now.setting.opening self.now.journal }
        ensures room { vec_capacity flows.new ≡ vec_capacity flows.old }
    {
        let _within = hall.coflows();
        self.granted.list_flows(flows);
    }

    /// Asks that a run of at most so many slots is opened. It takes one turn, which may wait, and no memory.
    ///
    /// `Spent` comes exactly where fewer calls are left than the run may need: this one, a note for each port, and its
    /// close.
    pub fn open_run<R: Wait>(&mut self, rt: &R, hall: &Hall, most: u64) -> Answer
        requires own { IsDriverOf hall.now self.old }
        requires most { 1 ≤ most }
        ensures turn { IsDriverTurn hall.now.setting.opening (Open most) (hall.now.setting.opening.table.ports + 2)
            self.old self.new result }
    {
        if is_spent(self.left, self.granted.ports() as u64 + 2) {
            return Answer::Spent;
        }
        self.ask(rt, hall, Command::Open(most))
    }

    /// Asks for the note that so many units were sent from an ingress port in the open run. It takes one turn, which
    /// may wait, and no memory.
    pub fn short<R: Wait>(&mut self, rt: &R, hall: &Hall, port: u32, sent: u64) -> Answer
        requires own { IsDriverOf hall.now self.old }
        requires port { port < hall.now.setting.opening.table.ports }
        ensures turn { IsDriverTurn hall.now.setting.opening (Short port sent) 1 self.old self.new result }
    {
        self.ask(rt, hall, Command::Short(port, sent))
    }

    /// Asks that the open run is closed. It takes one turn, which may wait, and no memory.
    pub fn close_run<R: Wait>(&mut self, rt: &R, hall: &Hall) -> Answer
        requires own { IsDriverOf hall.now self.old }
        ensures turn { IsDriverTurn hall.now.setting.opening Close 1 self.old self.new result }
    {
        self.ask(rt, hall, Command::Close)
    }

    /// Asks that slots pass, up to the one before this slot. It takes one turn, which may wait, and no memory.
    pub fn skip<R: Wait>(&mut self, rt: &R, hall: &Hall, to: u64) -> Answer
        requires own { IsDriverOf hall.now self.old }
        ensures turn { IsDriverTurn hall.now.setting.opening (Skip to) 1 self.old self.new result }
    {
        self.ask(rt, hall, Command::Skip(to))
    }

    /// Asks that the coflow joins. It takes one turn, which may wait, and no memory.
    pub fn register<R: Wait>(&mut self, rt: &R, hall: &Hall, coflow: u32) -> Answer
        requires own { IsDriverOf hall.now self.old }
        requires coflow { coflow < length hall.now.setting.opening.table.ids }
        ensures turn { IsDriverTurn hall.now.setting.opening (Register coflow) 1 self.old self.new result }
    {
        self.ask(rt, hall, Command::Register(coflow))
    }

    /// Asks that the coflow leaves. It takes one turn, which may wait, and no memory.
    pub fn withdraw<R: Wait>(&mut self, rt: &R, hall: &Hall, coflow: u32) -> Answer
        requires own { IsDriverOf hall.now self.old }
        requires coflow { coflow < length hall.now.setting.opening.table.ids }
        ensures turn { IsDriverTurn hall.now.setting.opening (Withdraw coflow) 1 self.old self.new result }
    {
        self.ask(rt, hall, Command::Withdraw(coflow))
    }

    /// Asks that the present coflows are ordered anew. It takes one turn, which may wait, and no memory. Where it is
    /// answered with a version, the list becomes the places of that version, and else it stays as it was. It has room
    /// for one place for each coflow.
    pub fn publish_out<R: Wait>(&mut self, rt: &R, hall: &Hall, places: &mut Vec<Place>) -> Answer
        requires own { IsDriverOf hall.now self.old }
        requires room { length hall.now.setting.opening.table.ids ≤ vec_capacity places.old }
        ensures turn { IsDriverTurn hall.now.setting.opening Publish 1 self.old self.new result }
        ensures places { HandsOut hall.now.setting.opening self.new.journal result places.old.items places.new.items }
        ensures room { vec_capacity places.new ≡ vec_capacity places.old }
    {
        if is_spent(self.left, 1) {
            return Answer::Spent;
        }
        let mut turn = hall.gate.enter_root(rt, &mut self.root);
        let answer = turn.value.drive(&hall.board, Command::Publish);
        if is_version(&answer) {
            turn.value.hand_out(places);
        }
        self.position = end_turn(&hall.gate, &mut self.root, &mut self.granted, turn);
        self.turned = self.position;
        self.left -= 1;
        Answer::of_turn(answer)
    }

    // What is left of a driver that ends: its root at the turnstile.
    pub(crate) fn into_root(self) -> Root<Desk>
        ensures root { IsRootOf self result }
    {
        let Driver {
            root,
            rank: _,
            left: _,
            turned: _,
            position: _,
            granted: _,
        } = self;
        root
    }

    // Takes a turn for a command.
    fn ask<R: Wait>(&mut self, rt: &R, hall: &Hall, command: Command) -> Answer
        requires own { IsDriverOf hall.now self.old }
        requires range { IsInRange hall.now.setting.opening command }
        ensures turn { IsDriverTurn hall.now.setting.opening command 1 self.old self.new result }
    {
        if is_spent(self.left, 1) {
            return Answer::Spent;
        }
        let mut turn = hall.gate.enter_root(rt, &mut self.root);
        let answer = turn.value.drive(&hall.board, command);
        self.position = end_turn(&hall.gate, &mut self.root, &mut self.granted, turn);
        self.turned = self.position;
        self.left -= 1;
        Answer::of_turn(answer)
    }
}
