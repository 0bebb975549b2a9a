//! The runner.
ghost use Rattle.std.specs.Prelude.{◌≡◌, ℕ, ◌+◌, ◌-◌, ◌<◌, ◌≤◌, ◌⊎◌, false, List, [], length, min, IfErr, IfOk, Option, Some, vec_capacity};
ghost use Rattle.std.specs.Borrow.{Lends, sem};
ghost use Rattle.coflow_units.specs.declared.limits.TheConstants.{MAX_PORTS};
ghost use Rattle.journal.specs.declared.command.Reply.TheVariants.{Late, NothingLeft};
ghost use Rattle.client_session.specs.contracts.driver.Driver.{the_row as driver_row};
ghost use Rattle.slot_runner.specs.contracts.runner.Runner.{the_row};
ghost use Rattle.journal.specs.declared.command.Entry.{Entry};
ghost use Rattle.journal.specs.Driven.{Drive};
ghost use Rattle.client_session.specs.Models.{IsDriverOf};
ghost use Rattle.slot_runner.specs.Models.{first_runner, MayRun};
ghost use Rattle.slot_runner.specs.Camps.{IsCamp};
ghost use Rattle.slot_runner.specs.Carried.{IsCarriedOut};
ghost use Rattle.slot_runner.specs.Settling.{IsOpenRunOf};
ghost use Rattle.slot_runner.specs.Slots.{has_run, IsAnswered, IsFaulted, IsFullAt, IsRan};

use crate::answer::{Ran, RunnerBack};
use crate::camp::Camp;
use crate::crew::{Crew, Site};
use crate::posting::post_grants;
use crate::settling::{close_run, note_short_ports, settle_ports};
use client_session::{Answer, Driver, Hall};
use crews::{Gathered, gather};
use journal::Reply;
use outside::Wire;
use port_agent::{Agent, serve_run};
use port_board::{PortBoard, Poster};
use std::alloc::Global;
use std::marker::Model;
use std::sync::Wait;
use std::thread::Threads;

/// The driver of a hall, with ports of its own on which its runs are granted.
///
/// Contracts see the driver, the number of ports, the posts on them and how each was settled, the slot before which its
/// runs ended, and the flows of its last run.
pub struct Runner {
    driver: Driver,
    board: PortBoard,
    poster: Poster,
    posted_to: u64,
    granted: Vec<u32>,
    /// What was sent of each of those flows.
    sent: Vec<u64>,
}

// Written out, since a derived one is proved anew, with those of all that it holds, in each crate that drops such a value.
impl Drop for Runner {
    fn drop(self) {
        let Runner {
            driver: _,
            board: _,
            poster: _,
            posted_to: _,
            granted: _,
            sent: _,
        } = self;
    }
}

impl Model for Runner {
    ghost use Rattle.std.specs.Prelude.{◌≡◌, ◌≤◌, vec_capacity};
    ghost use Rattle.slot_runner.specs.Models.{IsIdle, RunnerModel};

    ghost Value = { RunnerModel };

    ghost view = { λ r. record {
      driver = r.driver;
      ports = r.board.ports;
      posted_to = r.posted_to;
      posts = r.poster.view.posts;
      settled = r.poster.view.settled;
      granted = r.granted.items;
    } };

    ghost invariant = { λ r. (r.poster.at ≡ r.board.id) ×
        ((r.board.ports ≤ vec_capacity r.granted) × (r.board.ports ≤ vec_capacity r.sent)) ×
        IsIdle r.posted_to r.poster.view };
}

impl Runner {
    /// A runner of this driver with so many ports, from 1 to 1025. It has made no run.
    ///
    /// The error is want of memory, and hands the driver back as it was.
    pub fn new(alloc: Global, driver: Driver, ports: u32) -> Result<Runner, RunnerBack>
        requires ports { (1 ≤ ports) × (ports ≤ MAX_PORTS + 1) }
        ensures runner { IfOk result (λ r. r ≡ first_runner driver ports) }
        ensures back { IfErr result (λ b. b.driver ≡ driver) }
    {
        let Ok(granted) = Vec::with_capacity(alloc, ports as usize) else {
            return Err(RunnerBack { driver });
        };
        let Ok(sent) = Vec::with_capacity(alloc, ports as usize) else {
            return Err(RunnerBack { driver });
        };
        let Ok((board, poster)) = PortBoard::new(alloc, ports) else {
            return Err(RunnerBack { driver });
        };
        Ok(Runner {
            driver,
            board,
            poster,
            posted_to: 0,
            granted,
            sent,
        })
    }

    /// The driver, once no more runs are made.
    pub fn into_driver(self) -> Driver
        ensures { result ≡ self.driver }
    {
        let Runner {
            driver,
            board: _,
            poster: _,
            posted_to: _,
            granted: _,
            sent: _,
        } = self;
        driver
    }

    /// The runner as a crew of so many agents, the driver's own thread among them, with all that its runs need. There
    /// are no more agents than ports, and each but the driver's own has a tray. The wires are taken out of the vector,
    /// which keeps its room: the crew has one for each port, by number, and the camp those after them.
    ///
    /// The error is want of memory. It hands the runner back as it was, and the wires stay where they are.
    pub fn into_camp<W: Wire>(
        self,
        alloc: Global,
        agents: u32,
        wires: &mut Vec<W>,
    ) -> Result<Camp<W>, Runner>
        requires agents { 1 ≤ agents }
        requires wires { self.ports ≤ length wires.old.items }
        ensures camp { IfOk result (λ c. IsCamp self wires.old.items c) }
        ensures many { IfOk result (λ c. length c.site.trays.items ≡ min agents self.ports - 1) }
        ensures taken { IfOk result (λ c. wires.new.items ≡ []) }
        ensures back { IfErr result (λ r. (r ≡ self) × (wires.new.items ≡ wires.old.items)) }
        ensures room { vec_capacity wires.new ≡ vec_capacity wires.old }
    {
        let Some(gathered) = gather(alloc, &self.board, agents, wires) else {
            return Err(self);
        };
        let Runner {
            driver,
            board,
            poster,
            posted_to,
            granted,
            sent,
        } = self;
        let Gathered {
            trays,
            helpers,
            stations,
            wires: near,
            far,
        } = gathered;
        Ok(Camp {
            crew: Crew {
                driver,
                ports: board.ports(),
                poster,
                posted_to,
                granted,
                sent,
                stations,
                wires: near,
            },
            site: Site { board, trays },
            helpers,
            far,
        })
    }

    /// The driver, to take turns with between runs. All else of the runner stays as it is.
    pub fn driver(&mut self) -> &mut Driver
        ensures* lends { sem 𝓛 (Lends the_row driver_row self.entry result
            (λ w. record self.entry.now { driver = w })) }
        ensures driver { result.now ≡ self.old.driver }
    {
        &mut self.driver
    }

    /// The flows of the last run, by number. There are none before the first run.
    pub fn granted(&self) -> &[u32]
        ensures { result.now ≡ self.now.granted }
    {
        &self.granted
    }

    /// One run of at most so many slots: opens it, grants its flows at the ports, lets so many agents beside each other
    /// draw and send them, each at its own ports next to each other, settles every granted port, notes each one that
    /// sent less than the run has slots, by number, and closes the run. There is a wire for each port. It takes turns,
    /// which may wait.
    ///
    /// Memory is taken before the run is opened, so an opened run is always closed.
    pub fn slot<R: Threads + Wait + Sync, W: Wire + Send>(
        &mut self,
        alloc: Global,
        rt: &R,
        hall: &Hall,
        most: u64,
        agents: u32,
        wires: &mut [W],
    ) -> Ran
        requires may { MayRun hall.now self.old }
        requires most { 1 ≤ most }
        requires agents { 1 ≤ agents }
        requires wires { self.old.ports ≤ length wires.old }
        ensures ran { (slot slots count : ℕ) → result ≡ Ran.Ran slot slots count →
            IsRan W.faults W.runs hall.now.setting.opening most self.old self.new wires.old wires.new slot slots count }
        ensures wire_fault { (port units : ℕ) → result ≡ Ran.WireFault port units →
            IsFaulted W.faults W.runs hall.now.setting.opening most self.old self.new wires.old wires.new port units }
        ensures nothing { result ≡ Ran.Nothing →
            IsAnswered hall.now.setting.opening most self.old self.new NothingLeft }
        ensures late { (slot : ℕ) → result ≡ Ran.Late slot →
            IsAnswered hall.now.setting.opening most self.old self.new (Late slot) }
        ensures full { (count : ℕ) → result ≡ Ran.Full count →
            IsFullAt hall.now.setting.opening most self.old self.new count }
        ensures spent { result ≡ Ran.Spent → (self.old.driver.left < self.old.ports + 2) × (self.new ≡ self.old) }
        ensures calls { self.old.driver.left < self.old.ports + 2 → (result ≡ Ran.Spent) ⊎ (result ≡ Ran.NoMemory) }
        ensures no_memory { result ≡ Ran.NoMemory → self.new ≡ self.old }
        ensures wires { has_run result ≡ false → wires.new ≡ wires.old }
        ensures again { MayRun hall.now self.new }
    {
        let _within = hall.coflows();
        let Ok(seats) = Vec::with_capacity(alloc, agents as usize) else {
            return Ran::NoMemory;
        };
        let receipt = match self.driver().open_run(rt, hall, most) {
            Answer::Done(receipt) => receipt,
            Answer::Full(count) => return Ran::Full(count),
            Answer::Spent => return Ran::Spent,
        };
        let (slot, length, count) = match receipt.reply {
            Reply::Opened(slot, length, count) => (slot, length, count),
            Reply::Late(slot) => return Ran::Late(slot),
            Reply::NothingLeft => return Ran::Nothing,
            _ => unreachable!(),
        };
        match self.carry_out(rt, hall, slot, length, (seats, agents), wires) {
            None => Ran::Ran {
                slot,
                length,
                count,
            },
            Some((port, sent)) => Ran::WireFault { port, sent },
        }
    }

    // The open run, from its posts to its close: the first port that sent less than the run has slots, and what it sent.
    fn carry_out<R: Threads + Wait + Sync, W: Wire + Send>(
        &mut self,
        rt: &R,
        hall: &Hall,
        slot: u64,
        slots: u64,
        seats: (Vec<Agent>, u32),
        wires: &mut [W],
    ) -> Option<(u32, u64)>
        requires own { IsDriverOf hall.now self.old.driver ×
            (self.old.ports ≡ hall.now.setting.opening.table.ports) }
        requires later { self.old.posted_to ≤ slot }
        requires seats { (seats.0.items ≡ []) × (1 ≤ seats.1) × (seats.1 ≤ vec_capacity seats.0) }
        requires wires { self.old.ports ≤ length wires.old }
        requires run { (before : List Entry) × (d : Drive) × (slot ≡ d.first) × (slots ≡ d.slots) ×
            IsOpenRunOf hall.now.setting.opening before d self.old.driver }
        ensures run { (before : List Entry) (d : Drive) → slot ≡ d.first → slots ≡ d.slots →
            IsOpenRunOf hall.now.setting.opening before d self.old.driver →
            IsCarriedOut W.faults W.runs hall.now.setting.opening before d self.old self.new wires.old wires.new
            result }
    {
        let _within = hall.coflows();
        let _seen = self.driver.made();
        let (seats, agents) = seats;
        post_grants(
            hall,
            &self.driver,
            &self.board,
            &mut self.poster,
            slot,
            slots,
        );
        self.driver.list_granted(hall, &mut self.granted);
        let (near, _far) = wires.split_at_mut(self.board.ports() as usize);
        serve_run(rt, &self.board, &mut self.poster, seats, agents, near);
        settle_ports(
            hall,
            &self.driver,
            &self.board,
            &mut self.poster,
            &mut self.sent,
        );
        let fault = note_short_ports(rt, hall, &mut self.driver, &self.board, &self.sent, slots);
        close_run(rt, hall, &mut self.driver);
        self.posted_to = slot + slots;
        fault
    }
}
