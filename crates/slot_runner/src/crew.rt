//! A runner with a crew: its helpers live through all its runs.
ghost use Rattle.std.specs.Prelude.{◌≡◌, ℕ, ◌+◌, ◌<◌, ◌≤◌, ◌⊎◌, ◌^◌, false, List, [], length, map, Option, Some, vec_capacity};
ghost use Rattle.std.specs.Borrow.{Lends, sem};
ghost use Rattle.slot_runner.specs.contracts.crew.Crew.{the_row};
ghost use Rattle.journal.specs.declared.command.Reply.TheVariants.{Late, NothingLeft};
ghost use Rattle.client_session.specs.contracts.driver.Driver.{the_row as driver_row};
ghost use Rattle.journal.specs.declared.command.Entry.{Entry};
ghost use Rattle.journal.specs.Driven.{Drive};
ghost use Rattle.client_session.specs.Models.{IsDriverOf};
ghost use Rattle.slot_runner.specs.Models.{MayRun};
ghost use Rattle.crews.specs.Sections.{ended};
ghost use Rattle.slot_runner.specs.Crews.{IsAt};
ghost use Rattle.slot_runner.specs.Carried.{IsCarriedOut};
ghost use Rattle.slot_runner.specs.Settling.{IsOpenRunOf};
ghost use Rattle.slot_runner.specs.Slots.{has_run, IsAnswered, IsFaulted, IsFullAt, IsRan};

use crate::answer::Ran;
use crate::posting::post_grants;
use crate::settling::{close_run, note_short_ports, settle_ports};
use client_session::{Answer, Driver, Hall};
use crews::{Part, Station, end_all, serve_crew};
use errands::Tray;
use journal::Reply;
use outside::Wire;
use port_board::{PortBoard, Poster};
use std::marker::Model;
use std::sync::Wait;

/// What a crew and its helpers share, so that it is only ever borrowed while runs are made.
pub struct Site<W: Wire> {
    /// The board on which the runs are granted at the ports.
    pub board: PortBoard,
    /// A tray for each agent but the driver's own, at which the driver gives the agent's part of a run and takes it
    /// back.
    pub trays: Vec<Tray<Part<W>>>,
}

/// The driver of a hall, with the wires of its ports. `Runner::into_camp` makes it.
///
/// Its helpers live through all of its runs, each on a thread of its own. In each run the granted ports are cut into
/// stretches of even length, one for the driver and one for each helper, or one for each port where the ports are
/// fewer. The driver gives the helpers theirs, each with its wires at a tray, serves the first itself, and then takes
/// the others back, one at a time: it serves itself what no helper took, and waits for what one did.
///
/// Contracts see what a runner has, the board of the ports, the place of each helper (the driver's end of its tray, and
/// the room for its part), and the wires of all ports, by number.
pub struct Crew<W: Wire> {
    pub(crate) driver: Driver,
    pub(crate) ports: u32,
    pub(crate) poster: Poster,
    pub(crate) posted_to: u64,
    pub(crate) granted: Vec<u32>,
    pub(crate) sent: Vec<u64>,
    pub(crate) stations: Vec<Station<W>>,
    pub(crate) wires: Vec<Option<W>>,
}

impl<W: Wire> Model for Crew<W> {
    ghost use Rattle.std.specs.Prelude.{◌≡◌, ◌≤◌, ◌<◌, ◌^◌, length, map, vec_capacity};
    ghost use Rattle.crews.specs.Sections.{place_of};
    ghost use Rattle.crews.specs.Wires.{AllThere, wires_of};
    ghost use Rattle.slot_runner.specs.Models.{IsIdle};
    ghost use Rattle.slot_runner.specs.Crews.{CrewModel};

    ghost Value = { CrewModel W };

    ghost view = { λ r. record {
      runner = record {
        driver = r.driver;
        ports = r.ports;
        posted_to = r.posted_to;
        posts = r.poster.view.posts;
        settled = r.poster.view.settled;
        granted = r.granted.items;
      };
      at = r.poster.at;
      places = map place_of r.stations.items;
      wires = wires_of r.wires.items;
    } };

    ghost invariant = { λ r. ((r.ports ≤ vec_capacity r.granted) × (r.ports ≤ vec_capacity r.sent)) ×
        IsIdle r.posted_to r.poster.view × (length r.wires.items ≡ r.ports) × AllThere r.wires.items };
}

impl<W: Wire> Crew<W> {
    /// The flows of the last run, by number. There are none before the first run.
    pub fn granted(&self) -> &[u32]
        ensures { result.now ≡ self.now.runner.granted }
    {
        &self.granted
    }

    /// The driver, to take turns with between runs. All else of the crew stays as it is.
    pub fn driver(&mut self) -> &mut Driver
        ensures* lends { sem 𝓛 (Lends (the_row W.row W.Wire) driver_row self.entry result
            (λ w. record self.entry.now { runner = record self.entry.now.runner { driver = w } })) }
        ensures driver { result.now ≡ self.old.runner.driver }
    {
        &mut self.driver
    }

    /// One run of at most so many slots, by the agents of the crew at the site where it works: opens it, grants its
    /// flows at the ports, lets the agents draw and send them beside each other, each at its own ports, settles every
    /// granted port, notes each one that sent less than the run has slots, by number, and closes the run. It takes
    /// turns, which may wait. It takes no memory, so an opened run is always closed.
    ///
    /// The answers are those of `Runner::slot`, but for want of memory, which does not come:
    ///
    /// - `Ran`: a run was opened and closed, and each wire of a granted port accepted one unit for each slot.
    /// - `WireFault`: a run was opened and closed, and the wire of this port, the least such, accepted so many units,
    ///   fewer than the run has slots.
    /// - `Nothing`: no coflow of the line owes a unit. `Late`: no slot is left. `Full`: the journal has no room. Then
    ///   no run was opened, and the wires are as before.
    /// - `Spent`: the driver has fewer calls left than the number of ports and 2 more. No turn was taken, and all is as
    ///   before.
    pub fn slot<R: Wait>(&mut self, rt: &R, hall: &Hall, site: &Site<W>, most: u64) -> Ran
        requires may { MayRun hall.now self.old.runner }
        requires most { 1 ≤ most }
        requires site { IsAt site.now self.old }
        ensures ran { (slot slots count : ℕ) → result ≡ Ran.Ran slot slots count →
            IsRan W.faults W.runs hall.now.setting.opening most self.old.runner self.new.runner self.old.wires
            self.new.wires slot slots count }
        ensures wire_fault { (port units : ℕ) → result ≡ Ran.WireFault port units →
            IsFaulted W.faults W.runs hall.now.setting.opening most self.old.runner self.new.runner self.old.wires
            self.new.wires port units }
        ensures nothing { result ≡ Ran.Nothing →
            IsAnswered hall.now.setting.opening most self.old.runner self.new.runner NothingLeft }
        ensures late { (slot : ℕ) → result ≡ Ran.Late slot →
            IsAnswered hall.now.setting.opening most self.old.runner self.new.runner (Late slot) }
        ensures full { (count : ℕ) → result ≡ Ran.Full count →
            IsFullAt hall.now.setting.opening most self.old.runner self.new.runner count }
        ensures spent { result ≡ Ran.Spent →
            (self.old.runner.driver.left < self.old.runner.ports + 2) × (self.new ≡ self.old) }
        ensures calls { self.old.runner.driver.left < self.old.runner.ports + 2 → result ≡ Ran.Spent }
        ensures memory { result ≡ Ran.NoMemory → ⊥ }
        ensures wires { has_run result ≡ false → self.new.wires ≡ self.old.wires }
        ensures again { MayRun hall.now self.new.runner }
        ensures stays { (self.new.at ≡ self.old.at) × (self.new.places ≡ self.old.places) }
    {
        let _within = hall.coflows();
        let receipt = match self.driver.open_run(rt, hall, most) {
            Answer::Done(receipt) => receipt,
            Answer::Full(count) => return Ran::Full(count),
            Answer::Spent => return Ran::Spent,
        };
        let (slot, length, count) = match receipt.reply {
            Reply::Opened(slot, length, count) => (slot, length, count),
            Reply::Late(slot) => return Ran::Late(slot),
            Reply::NothingLeft => return Ran::Nothing,
            _ => unreachable!(),
        };
        match self.carry_out(rt, hall, site, slot, length) {
            None => Ran::Ran {
                slot,
                length,
                count,
            },
            Some((port, sent)) => Ran::WireFault { port, sent },
        }
    }

    /// Tells the helpers at the site that no run is made any more, so that they end. All else of the crew stays as it
    /// is. It comes once, after the last run.
    pub fn dismiss(&mut self, site: &Site<W>)
        requires site { IsAt site.now self.old }
        ensures { self.new ≡ record self.old { places = map ended self.old.places } }
    {
        end_all(&site.trays, &mut self.stations);
    }

    // The open run, from its posts to its close: the first port that sent less than the run has slots, and what it sent.
    fn carry_out<R: Wait>(
        &mut self,
        rt: &R,
        hall: &Hall,
        site: &Site<W>,
        slot: u64,
        slots: u64,
    ) -> Option<(u32, u64)>
        requires own { IsDriverOf hall.now self.old.runner.driver ×
            (self.old.runner.ports ≡ hall.now.setting.opening.table.ports) }
        requires later { self.old.runner.posted_to ≤ slot }
        requires site { IsAt site.now self.old }
        requires run { (before : List Entry) × (d : Drive) × (slot ≡ d.first) × (slots ≡ d.slots) ×
            IsOpenRunOf hall.now.setting.opening before d self.old.runner.driver }
        ensures run { (before : List Entry) (d : Drive) → slot ≡ d.first → slots ≡ d.slots →
            IsOpenRunOf hall.now.setting.opening before d self.old.runner.driver →
            IsCarriedOut W.faults W.runs hall.now.setting.opening before d self.old.runner self.new.runner
            self.old.wires self.new.wires result }
        ensures stays { (self.new.at ≡ self.old.at) × (self.new.places ≡ self.old.places) }
    {
        let _within = hall.coflows();
        let _seen = self.driver.made();
        post_grants(
            hall,
            &self.driver,
            &site.board,
            &mut self.poster,
            slot,
            slots,
        );
        self.driver.list_granted(hall, &mut self.granted);
        serve_crew(
            rt,
            &site.board,
            &mut self.poster,
            &site.trays,
            &mut self.stations,
            self.driver.granted_ports(),
            &mut self.wires,
        );
        settle_ports(
            hall,
            &self.driver,
            &site.board,
            &mut self.poster,
            &mut self.sent,
        );
        let fault = note_short_ports(rt, hall, &mut self.driver, &site.board, &self.sent, slots);
        close_run(rt, hall, &mut self.driver);
        self.posted_to = slot + slots;
        fault
    }
}
