//! The master.
ghost use Rattle.std.specs.Prelude.{◌≡◌, ℕ, ◌+◌, ◌^◌, ◌<◌, ◌≤◌, ◌&&◌, [], All, IfOk, IsTrue, length, map, nat_le, nat_lt, slice_index};
ghost use Rattle.coflow_units.specs.declared.limits.TheConstants.{MAX_PORTS, MAX_WEIGHT};
ghost use Rattle.coflow_units.specs.declared.plan.Place.{Place};
ghost use Rattle.coflow_units.specs.Flows.{Instance, IsDistinct, ingress_of};
ghost use Rattle.bssi_order.specs.Order.{IsOrder};
ghost use Rattle.journal.specs.Answer.{IsInRange, in_range, reply_of, room};
ghost use Rattle.journal.specs.Fold.{state_of};
ghost use Rattle.journal.specs.Journal.{IsLegal, journal_after, order_in, rank_of, version_of};
ghost use Rattle.journal.specs.Runs.{flow_at, flows_granted, noted_at, slots_of};
ghost use Rattle.journal.specs.Sound.{InRange};
ghost use Rattle.master_core.specs.Published.{TellsPlaces, ranked};
ghost use Rattle.journal.specs.State.{IsOpening, owed};

use crate::standing::Standing;
use coflow_units::{Items, MAX_WEIGHT, NoMemory, Place};
use flow_table::Table;
use journal::{Command, Entry, Opening, Reply};
use std::alloc::Global;
use std::marker::Model;

/// The master of one thread. It answers commands one by one; what it answers is told by its opening and its journal
/// alone. It keeps a state beside the journal, and never reads the journal back.
///
/// Contracts see a `Master` as its opening, which no command changes, and its journal.
#[derive(Drop)]
pub struct Master {
    opening: Opening,
    journal: Vec<Entry>,
    standing: Standing,
}

impl Model for Master {
    ghost use Rattle.std.specs.Prelude.{vec_capacity};
    ghost use Rattle.master_core.specs.Master.{MasterFacts};
    ghost use Rattle.master_core.specs.Master.{IsMaster};

    ghost Value = { MasterFacts };

    ghost view = { λ s. record { opening = s.opening; journal = s.journal.items } };

    ghost invariant = { λ s. IsMaster s.opening s.journal.items (vec_capacity s.journal) s.standing };
}

impl Master {
    /// A master of the table's coflows with these weights, one for each coflow, from 1 to 2^32. Its journal takes
    /// entries up to the limit, from 1 to 2^23, and has further room for the notes and the closing of an open run. All
    /// memory that it ever needs is taken here, and the error is want of it.
    pub fn new(
        alloc: Global,
        table: Table,
        weights: Items<u64>,
        journal_limit: u32,
    ) -> Result<Master, NoMemory>
        requires weights_len { length weights ≡ length table.ids }
        requires weights_fit { All (λ w. (1 ≤ w) × (w ≤ MAX_WEIGHT)) weights }
        requires some { 1 ≤ journal_limit }
        requires few { journal_limit ≤ 2 ^ 23 }
        ensures opening { IfOk result
            (λ m. m.opening ≡ record { table = table; weights = weights; limit = journal_limit }) }
        ensures journal { IfOk result (λ m. m.journal ≡ []) }
    {
        let room = journal_limit as usize + table.ports() as usize + 1;
        let Ok(journal) = Vec::with_capacity(alloc, room) else {
            drop(table);
            drop(weights);
            return Err(NoMemory);
        };
        let opening = Opening {
            table,
            weights,
            limit: journal_limit,
        };
        let Ok(standing) = Standing::new(alloc, &opening) else {
            drop(journal);
            drop(opening);
            return Err(NoMemory);
        };
        Ok(Master {
            opening,
            journal,
            standing,
        })
    }

    /// Whether a command is in range: its coflow and its port are the table's, a run is opened for at least one slot,
    /// and a weight is from 1 to 2^32.
    pub fn is_in_range(&self, command: Command) -> bool
        ensures test { result ≡ in_range self.now.opening command }
        ensures range { IsTrue result → IsInRange self.now.opening command }
    {
        let coflows = self.opening.table.coflows();
        match command {
            Command::Register(coflow) => coflow < coflows,
            Command::Withdraw(coflow) => coflow < coflows,
            Command::Pull(coflow) => coflow < coflows,
            Command::Open(most) => most > 0,
            Command::Short(ingress, _) => ingress < self.opening.table.ports(),
            Command::Reweigh { coflow, weight } => { coflow < coflows && is_weight(weight) }
            Command::Publish | Command::Close | Command::Skip(_) => true,
        }
    }

    /// Carries out a command of a caller, and answers it; the journal gets an entry of both. Where the journal has no
    /// room, the answer is `Full` and nothing changes. The command is in range, as `is_in_range` tells. It takes no
    /// memory.
    pub fn step(&mut self, who: u32, command: Command) -> Reply
        requires { IsInRange self.old.opening command }
        ensures reply { result ≡ reply_of self.old.opening self.old.journal command }
        ensures journal { self.new.journal ≡ journal_after self.old.opening self.old.journal who command }
        ensures opening { self.new.opening ≡ self.old.opening }
    {
        let entries = self.journal.len();
        if entries >= room_for(&self.opening, command) {
            return Reply::Full(entries as u32);
        }
        let reply = self.standing.carry_out(&self.opening, command);
        self.journal.push_reserved(Entry {
            who,
            command,
            reply,
        });
        reply
    }

    /// The journal: every command that was answered otherwise than by `Full`, with its caller and its reply.
    pub fn journal(&self) -> &[Entry]
        ensures journal { result.now ≡ self.now.journal }
        ensures legal { IsLegal self.now.opening self.now.journal }
        ensures in_range { InRange self.now.opening self.now.journal }
        ensures opening { IsOpening self.now.opening }
        ensures fits { length self.now.journal ≤ self.now.opening.limit + self.now.opening.table.ports + 1 }
    {
        &self.journal
    }

    /// The flow that is granted at an ingress in the open run. None comes exactly where no run is open, or the ingress
    /// has no grant in it.
    pub fn granted(&self, ingress: u32) -> Option<u32>
        ensures { result ≡
            flow_at self.now.opening.table.flows (state_of self.now.opening self.now.journal).run ingress }
    {
        self.standing.runs.at(ingress)
    }

    /// The flows that are granted in the open run, by number. There are none where no run is open. It takes no memory.
    pub fn granted_flows(&self) -> &[u32]
        ensures { result.now ≡ flows_granted (state_of self.now.opening self.now.journal).run }
    {
        self.standing.runs.flows()
    }

    /// The ingress port of each flow that is granted in the open run, in the order of `granted_flows`. There are none
    /// where no run is open. It takes no memory.
    pub fn granted_ports(&self) -> &[u32]
        ensures { result.now ≡ map (ingress_of self.now.opening.table.flows)
            (flows_granted (state_of self.now.opening self.now.journal).run) }
    {
        self.standing.runs.ports()
    }

    /// How many slots the open run has; its first is the next slot. None comes exactly where no run is open.
    pub fn open_slots(&self) -> Option<u64>
        ensures { result ≡ slots_of (state_of self.now.opening self.now.journal).run }
    {
        match self.standing.runs.current() {
            Some(run) => Some(run.slots),
            None => None,
        }
    }

    /// What was noted last at an ingress in the open run. None comes exactly where no run is open, or nothing was noted
    /// there in it.
    pub fn noted(&self, ingress: u32) -> Option<u64>
        requires { ingress < self.now.opening.table.ports }
        ensures { result ≡ noted_at (state_of self.now.opening self.now.journal).run ingress }
    {
        self.standing.runs.noted(ingress)
    }

    /// The places of the newest version, from place 1 on; none before the first publishing. No coflow has two.
    pub fn places(&self) -> &[Place]
        ensures places { TellsPlaces (state_of self.now.opening self.now.journal).published result.now }
        ensures order { ranked result.now ≡ order_in self.now.opening self.now.journal (version_of self.now.journal) }
        ensures few { length result.now ≤ length self.now.opening.table.ids }
        ensures once { IsDistinct (ranked result.now) }
        ensures coflow { All (λ (x : Place). x.coflow < length self.now.opening.table.ids) result.now }
    {
        self.standing.orders.places()
    }

    /// The place of a coflow in the newest version, counted from 1, or 0 where it has none.
    pub fn rank(&self, coflow: u32) -> u32
        requires { coflow < length self.now.opening.table.ids }
        ensures { result ≡ rank_of self.now.opening self.now.journal (version_of self.now.journal) coflow }
    {
        self.standing.orders.rank(coflow)
    }

    /// For each coflow its place in the newest version, counted from 1, or 0 where it has none. It takes no memory.
    pub fn ranks(&self) -> &[u32]
        ensures len { length result.now ≡ length self.now.opening.table.ids }
        ensures rank { (coflow : ℕ) → coflow < length self.now.opening.table.ids →
            slice_index result.now coflow ≡ rank_of self.now.opening self.now.journal (version_of self.now.journal)
            coflow }
    {
        self.standing.orders.ranks()
    }

    /// The newest version; 0 before the first publishing.
    pub fn version(&self) -> u32
        ensures { result ≡ version_of self.now.journal }
    {
        self.standing.orders.version()
    }

    /// The next slot: that with which the next run begins, or with which the open run began.
    pub fn next_slot(&self) -> u64
        ensures { result ≡ (state_of self.now.opening self.now.journal).next }
    {
        self.standing.next
    }

    /// The units that a flow owes: those that no closed run credited to it.
    pub fn owed(&self, flow: u32) -> u64
        requires { flow < length self.now.opening.table.flows }
        ensures { result ≡ owed self.now.opening (state_of self.now.opening self.now.journal) flow }
    {
        self.standing.ledger.owed(flow)
    }

    /// The weight of a coflow: the last one that a `Reweigh` gave it, or the opening's where none did. The next order
    /// takes it.
    pub fn weight(&self, coflow: u32) -> u64
        requires { coflow < length self.now.opening.table.ids }
        ensures { result ≡ (state_of self.now.opening self.now.journal).weight coflow }
    {
        self.standing.weights[coflow as usize]
    }

    /// The table that the master was made with.
    pub fn table(&self) -> &Table
        ensures { result.now ≡ self.now.opening.table }
    {
        &self.opening.table
    }
}

fn is_weight(weight: u64) -> bool
    ensures { result ≡ (nat_lt 0 weight && nat_le weight (2 ^ 32)) }
{
    weight > 0 && weight <= MAX_WEIGHT
}

/// Up to how many entries the journal may grow by the command. An open run can be closed after one note for each port,
/// also where other commands find no room.
fn room_for(opening: &Opening, command: Command) -> usize
    requires few { opening.now.limit ≤ 2 ^ 23 }
    requires few_ports { opening.now.table.ports ≤ MAX_PORTS + 1 }
    ensures { result ≡ room opening.now command }
{
    match command {
        Command::Short(_, _) | Command::Close => {
            opening.limit as usize + opening.table.ports() as usize + 1
        }
        _ => opening.limit as usize,
    }
}
