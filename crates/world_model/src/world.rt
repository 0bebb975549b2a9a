//! The world, and the steps that it takes.
ghost use Rattle.std.specs.Prelude.{◌≡◌, ◌≢◌, ℕ, ◌<◌, true, false, List, [], IfOk, Some};
ghost use Rattle.journal.specs.Answer.{IsInRange, reply_of};
ghost use Rattle.journal.specs.Runs.{slots_of};
ghost use Rattle.world_model.specs.declared.event.Event.TheVariants.{Ask, Post, Draw, Send, Report, Settle, Note, Close};
ghost use Rattle.world_model.specs.declared.event.SentRun.{SentRun};
ghost use Rattle.world_model.specs.Port.{port_of, ports_of};
ghost use Rattle.world_model.specs.Sent.{sent_for};
ghost use Rattle.world_model.specs.World.{WorldFacts, new_world, port_at, run_of};
ghost use Rattle.world_model.specs.Kept.{IsPortOf, TellsSent};
ghost use Rattle.world_model.specs.Guards.{can, in_run, is_done, is_free};
ghost use Rattle.world_model.specs.Steps.{IsBusy, IsSameButJournal, asks, cleared, happened, is_full_answer, is_opened, is_refused_answer, is_send, world_after};
ghost use Rattle.world_model.specs.Lawful.{ClosesAsSent, IsLegalWorld, IsWorld, OpensGrants, OpensPatiently, SendsInTime, SendsOnce, SendsWithin};

use crate::event::{Event, Happened, SentRun};
use crate::port::{PortState, Stage};
use coflow_units::NoMemory;
use master_core::{Command, Entry, Master, Reply};
use std::alloc::Global;
use std::marker::Model;

/// A master, agents, a port for each ingress, and the runs that agents sent. It takes the steps of callers, agents and
/// the driver of runs in any order, one at a time.
///
/// Contracts see a `World` as the opening and the journal of its master, the number of agents, what each port tells,
/// and the runs that were sent, the first first.
#[derive(Drop)]
pub struct World {
    master: Master,
    agents: u32,
    ports: Vec<PortState>,
    sent: Vec<SentRun>,
}

impl Model for World {
    ghost use Rattle.world_model.specs.World.{WorldFacts, world_facts};
    ghost use Rattle.world_model.specs.Lawful.{IsWorld};
    ghost use Rattle.world_model.specs.Kept.{TellsSent};

    ghost Value = { WorldFacts };

    ghost view = { λ s. world_facts s.master s.agents s.ports.items s.sent.items };

    ghost invariant = { λ s. IsWorld (world_facts s.master s.agents s.ports.items s.sent.items) ×
        TellsSent s.ports.items s.sent.items };
}

impl World {
    /// A world of this master, whose journal is empty, and of so many agents. Nothing is posted and nothing sent. The
    /// error is want of memory.
    pub fn new(alloc: Global, master: Master, agents: u32) -> Result<World, NoMemory>
        requires { master.journal ≡ [] }
        ensures world { IfOk result (λ w. w ≡ new_world master.opening agents) }
        ensures kept { IfOk result (λ w. IsWorld w) }
    {
        prove!(master.journal().is_empty());
        let Ok(ports) = vec![in alloc; PortState::idle(); master.table().ports() as usize] else {
            drop(master);
            return Err(NoMemory);
        };
        Ok(World {
            master,
            agents,
            ports,
            sent: Vec::new(alloc),
        })
    }

    /// Takes one step, where it may be taken.
    ///
    /// `Blocked` comes exactly where the step may not be taken, and changes nothing. `Busy` comes exactly where the
    /// step settles a post that an agent has drawn and not reported; it tells the word of the port, and changes
    /// nothing. A step that the master answers by `Full` changes nothing either, and one that it answers by another
    /// refusal changes nothing but the journal. `NoMemory` is want of memory for one more sent run: it comes only from
    /// `Send`, where that step might be taken, and changes nothing. Every other answer, and the world after it, is that
    /// of the definition.
    pub fn step(&mut self, event: Event) -> Happened
        ensures answer { result ≢ Happened.NoMemory → result ≡ happened self.old event }
        ensures world { result ≢ Happened.NoMemory → self.new ≡ world_after self.old event }
        ensures blocked { result ≡ Happened.Blocked → (can self.old event ≡ false) × (self.new ≡ self.old) }
        ensures may { can self.old event ≡ false → result ≡ Happened.Blocked }
        ensures no_memory { result ≡ Happened.NoMemory →
            (is_send event ≡ true) × (can self.old event ≡ true) × (self.new ≡ self.old) }
        ensures busy { (word : ℕ) → result ≡ Happened.Busy word → IsBusy self.old event word × (self.new ≡ self.old) }
        ensures drawn { (word : ℕ) → IsBusy self.old event word → result ≡ Happened.Busy word }
        ensures full { is_full_answer result ≡ true → self.new ≡ self.old }
        ensures refused { is_refused_answer result ≡ true → IsSameButJournal self.old self.new }
    {
        match event {
            Event::Ask { who, command } => self.ask(who, command),
            Event::Post { port } => self.post(port),
            Event::Draw { agent, port } => self.draw(agent, port),
            Event::Send { agent, port, units } => self.send(agent, port, units),
            Event::Report { agent, port } => self.report(agent, port),
            Event::Settle { port } => self.settle(port),
            Event::Note { port } => self.note(port),
            Event::Close => self.close(),
        }
    }

    /// The master.
    pub fn master(&self) -> &Master
        ensures opening { result.now.opening ≡ self.now.opening }
        ensures journal { result.now.journal ≡ self.now.journal }
    {
        &self.master
    }

    /// The master's journal. It is legal, each closing in it credited what was sent in its run, and each opening
    /// granted the grants of its line.
    pub fn journal(&self) -> &[Entry]
        ensures journal { result.now ≡ self.now.journal }
        ensures legal { IsLegalWorld self.now }
        ensures credited { ClosesAsSent self.now }
        ensures granted { OpensGrants self.now }
        ensures patient { OpensPatiently self.now }
    {
        self.master.journal()
    }

    /// How many agents there are; their numbers are those below.
    pub fn agents(&self) -> u32
        ensures { result ≡ self.now.agents }
    {
        self.agents
    }

    /// An ingress port: the stage of its last post, its count, which is the length of the run once the grant is posted
    /// and the units sent once they are reported, what is settled for it, and the units that were sent for it. The
    /// master's table tells the number of ports.
    pub fn port(&self, port: u32) -> PortState
        requires { port < self.now.opening.table.ports }
        ensures port { port_of result ≡ port_at self.now port }
        ensures stage { IsPortOf self.now port (port_of result) }
        ensures sent { result.sent ≡ sent_for self.now.sent port result.slot }
    {
        self.ports[port as usize]
    }

    /// The runs that agents sent, the first first. No pair of a slot and a flow stands twice in them, no flow has more
    /// units there than it has, and none stands past the open run. The world has what every step keeps.
    pub fn sent(&self) -> &[SentRun]
        ensures sent { result.now ≡ self.now.sent }
        ensures kept { IsWorld self.now }
        ensures once { SendsOnce self.now }
        ensures within { SendsWithin self.now }
        ensures in_time { SendsInTime self.now }
    {
        &self.sent
    }

    fn ask(&mut self, who: u32, command: Command) -> Happened
        ensures answer { result ≡ happened self.old (Ask who command) }
        ensures world { self.new ≡ world_after self.old (Ask who command) }
    {
        if !is_free(command) {
            return Happened::Blocked;
        }
        if !self.master.is_in_range(command) {
            return Happened::Blocked;
        }
        Happened::Replied(self.carry_out(who, command))
    }

    fn post(&mut self, port: u32) -> Happened
        ensures answer { result ≡ happened self.old (Post port) }
        ensures world { self.new ≡ world_after self.old (Post port) }
    {
        if port >= self.master.table().ports() {
            return Happened::Blocked;
        }
        let Some(slots) = self.master.open_slots() else {
            return Happened::Blocked;
        };
        let Some(flow) = self.master.granted(port) else {
            return Happened::Blocked;
        };
        let first = self.master.next_slot();
        let last = self.ports[port as usize];
        if last.slot == first {
            return Happened::Blocked;
        }
        self.ports[port as usize] = PortState {
            slot: first,
            flow,
            stage: Stage::Granted,
            count: slots,
            settled: last.settled,
            sent: 0,
        };
        Happened::Posted
    }

    fn draw(&mut self, agent: u32, port: u32) -> Happened
        ensures answer { result ≡ happened self.old (Draw agent port) }
        ensures world { self.new ≡ world_after self.old (Draw agent port) }
    {
        if port >= self.master.table().ports() {
            return Happened::Blocked;
        }
        if agent >= self.agents {
            return Happened::Blocked;
        }
        if !self.ports[port as usize].is_granted() {
            return Happened::Blocked;
        }
        self.ports[port as usize].stage = Stage::Drawn(agent);
        Happened::Drawn
    }

    fn send(&mut self, agent: u32, port: u32, units: u64) -> Happened
        ensures answer { result ≢ Happened.NoMemory → result ≡ happened self.old (Send agent port units) }
        ensures world { result ≢ Happened.NoMemory → self.new ≡ world_after self.old (Send agent port units) }
        ensures no_memory { result ≡ Happened.NoMemory →
            (can self.old (Send agent port units) ≡ true) × (self.new ≡ self.old) }
    {
        if !self.is_drawn(agent, port) {
            return Happened::Blocked;
        }
        let post = self.ports[port as usize];
        if post.sent > 0 {
            return Happened::Blocked;
        }
        if units == 0 {
            return Happened::Blocked;
        }
        if units > post.count {
            return Happened::Blocked;
        }
        let run = SentRun {
            slot: post.slot,
            flow: post.flow,
            units,
            port,
        };
        let Ok(()) = self.sent.push(run) else {
            return Happened::NoMemory;
        };
        self.ports[port as usize].sent = units;
        Happened::Sent
    }

    fn report(&mut self, agent: u32, port: u32) -> Happened
        ensures answer { result ≡ happened self.old (Report agent port) }
        ensures world { self.new ≡ world_after self.old (Report agent port) }
    {
        if !self.is_drawn(agent, port) {
            return Happened::Blocked;
        }
        let post = self.ports[port as usize];
        let units = post.sent;
        self.ports[port as usize] = PortState {
            slot: post.slot,
            flow: post.flow,
            stage: Stage::Reported { agent, units },
            count: units,
            settled: post.settled,
            sent: units,
        };
        Happened::Reported
    }

    fn settle(&mut self, port: u32) -> Happened
        ensures answer { result ≡ happened self.old (Settle port) }
        ensures world { self.new ≡ world_after self.old (Settle port) }
    {
        if port >= self.master.table().ports() {
            return Happened::Blocked;
        }
        if self.master.open_slots().is_none() {
            return Happened::Blocked;
        }
        let first = self.master.next_slot();
        let post = self.ports[port as usize];
        if post.slot != first {
            return Happened::Blocked;
        }
        if post.settled.is_some() {
            return Happened::Blocked;
        }
        self.ports[port as usize].settle()
    }

    fn note(&mut self, port: u32) -> Happened
        ensures answer { result ≡ happened self.old (Note port) }
        ensures world { self.new ≡ world_after self.old (Note port) }
    {
        if port >= self.master.table().ports() {
            return Happened::Blocked;
        }
        let Some(slots) = self.master.open_slots() else {
            return Happened::Blocked;
        };
        let Some(units) = self.ports[port as usize].settled else {
            return Happened::Blocked;
        };
        if units >= slots {
            return Happened::Blocked;
        }
        Happened::Noted(self.carry_out(0, Command::Short(port, units)))
    }

    fn close(&mut self) -> Happened
        ensures answer { result ≡ happened self.old Close }
        ensures world { self.new ≡ world_after self.old Close }
    {
        if !self.can_close() {
            return Happened::Blocked;
        }
        Happened::Replied(self.carry_out(0, Command::Close))
    }

    /// Asks the master a command that is in range. Where it opens a run, nothing is settled for that run yet.
    fn carry_out(&mut self, who: u32, command: Command) -> Reply
        requires in_range { IsInRange self.old.opening command }
        requires keeps { IsWorld (asks self.old who command) }
        ensures reply { result ≡ reply_of self.old.opening self.old.journal command }
        ensures world { self.new ≡ asks self.old who command }
    {
        let reply = self.master.step(who, command);
        if opens(reply) {
            clear_settled(&mut self.ports);
        }
        reply
    }

    /// Whether there are such an agent and such a port, and the agent drew what is posted there and has not reported.
    fn is_drawn(&self, agent: u32, port: u32) -> bool
        ensures { result ≡ can self.now (Report agent port) }
    {
        if port >= self.master.table().ports() {
            return false;
        }
        if agent >= self.agents {
            return false;
        }
        self.ports[port as usize].is_drawn_by(agent)
    }

    /// Whether a run is open and each port is done with it.
    fn can_close(&self) -> bool
        ensures may { result ≡ can self.now Close }
        ensures kept { IsWorld self.now }
    {
        let Some(slots) = self.master.open_slots() else {
            return false;
        };
        for port in 0..self.master.table().ports() {
            if !self.is_done(port, slots) {
                return false;
            }
        }
        true
    }

    /// Whether the port has no grant in the open run, of so many slots, or is settled, with its number noted where that
    /// is less.
    fn is_done(&self, port: u32, slots: u64) -> bool
        requires port_in { port < self.now.opening.table.ports }
        requires open { slots_of (run_of self.now) ≡ Some slots }
        ensures { result ≡ in_run (run_of self.now) (λ r. is_done self.now.opening r port (port_at self.now port)) }
    {
        if self.master.granted(port).is_none() {
            return true;
        }
        let Some(units) = self.ports[port as usize].settled else {
            return false;
        };
        if units >= slots {
            return true;
        }
        match self.master.noted(port) {
            Some(noted) => noted == units,
            None => false,
        }
    }
}

/// The command is neither `Short` nor `Close`: the driver asks these by steps of their own.
fn is_free(command: Command) -> bool
    ensures { result ≡ is_free command }
{
    match command {
        Command::Short(_, _) | Command::Close => false,
        _ => true,
    }
}

fn opens(reply: Reply) -> bool
    ensures { result ≡ is_opened reply }
{
    match reply {
        Reply::Opened(_, _, _) => true,
        _ => false,
    }
}

/// Nothing is settled at any port from now on. What was sent for their posts stays.
fn clear_settled(ports: &mut [PortState])
    ensures ports { ports_of ports.new ≡ cleared (ports_of ports.old) }
    ensures sent { (sent : List SentRun) → TellsSent ports.old sent → TellsSent ports.new sent }
{
    for port in ports {
        port.settled = None;
    }
}
