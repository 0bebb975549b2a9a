//! What is granted in the open run, and what a hall begins with beside its master.
ghost use Rattle.client_session.specs.Grants.{TellsGrants};
ghost use Rattle.coflow_units.specs.declared.fabric.Flow.{Flow};
ghost use Rattle.coflow_units.specs.Flows.{ingress_of};
ghost use Rattle.journal.specs.Runs.{grant_in};
ghost use Rattle.rank_board.specs.Models.{first_publisher, new_seat};
ghost use Rattle.std.specs.Prelude.{◌≡◌, ◌==◌, ◌≤◌, List, [], IfOk, length, map, position, vec_capacity};

use coflow_units::NoMemory;
use master_core::Master;
use rank_board::{Publisher, RankBoard, RankSeat};
use std::alloc::Global;
use std::marker::Model;

/// What is granted in the run that is open after a journal: its flows by number, and beside each the ingress port at
/// which it begins.
///
/// Contracts see how many ingress ports there are, and the two lists.
#[derive(Drop)]
pub struct Granted {
    ports: u32,
    flows: Vec<u32>,
    ingresses: Vec<u32>,
}

impl Model for Granted {
    ghost use Rattle.std.specs.Prelude.{◌≡◌, ◌≤◌, length, vec_capacity};
    ghost use Rattle.client_session.specs.Grants.{GrantedModel};

    ghost Value = { GrantedModel };

    ghost view = { λ g. record { ports = g.ports; flows = g.flows.items; ingresses = g.ingresses.items } };

    ghost invariant = { λ g. (g.ports ≤ vec_capacity g.flows) × (g.ports ≤ vec_capacity g.ingresses) ×
        (length g.ingresses.items ≡ length g.flows.items) };
}

impl Granted {
    /// Nothing is granted at so many ingress ports. There is room for a flow of each. The error is want of memory.
    pub fn new(alloc: Global, ports: u32) -> Result<Granted, NoMemory>
        ensures ports { IfOk result (λ g. g.ports ≡ ports) }
        ensures flows { IfOk result (λ g. g.flows ≡ []) }
    {
        let flows = Vec::with_capacity(alloc, ports as usize)?;
        let Ok(ingresses) = Vec::with_capacity(alloc, ports as usize) else {
            drop(flows);
            return Err(NoMemory);
        };
        Ok(Granted {
            ports,
            flows,
            ingresses,
        })
    }

    /// How many ingress ports there are.
    pub fn ports(&self) -> u32
        ensures { result ≡ self.now.ports }
    {
        self.ports
    }

    /// The granted flows by number.
    pub fn flows(&self) -> &[u32]
        ensures { result.now ≡ self.now.flows }
    {
        &self.flows
    }

    /// The ingress port of each granted flow, in the order of the flows.
    pub fn ingresses(&self) -> &[u32]
        ensures { result.now ≡ self.now.ingresses }
    {
        &self.ingresses
    }

    /// The flow at an ingress. None comes exactly where nothing is granted there, or where there is no such port.
    pub fn at(&self, ingress: u32) -> Option<u32>
        ensures { (flows : List Flow) → self.now.ingresses ≡ map (ingress_of flows) self.now.flows →
            result ≡ grant_in flows self.now.flows ingress }
    {
        let place = find_place(&self.ingresses, ingress)?;
        Some(self.flows[place])
    }

    /// Makes the list the granted flows by number, for which it has room.
    pub fn list_flows(&self, to: &mut Vec<u32>)
        requires room { length self.now.flows ≤ vec_capacity to.old }
        ensures flows { to.new.items ≡ self.now.flows }
        ensures room { vec_capacity to.new ≡ vec_capacity to.old }
    {
        write_over(&self.flows, to);
    }

    /// Becomes what a master's open run grants.
    pub fn tell(&mut self, master: &Master)
        requires ports { self.old.ports ≡ master.now.opening.table.ports }
        ensures granted { TellsGrants master.now.opening master.now.journal self.new }
    {
        let _legal = master.journal();
        copy_numbers(master.granted_flows(), &mut self.flows);
        copy_numbers(master.granted_ports(), &mut self.ingresses);
    }
}

// The place of a port in a list of ports.
fn find_place(ports: &[u32], port: u32) -> Option<usize>
    ensures { result ≡ position (λ p. p == port) ports.now }
{
    ports.iter().position(|p| *p == port)
}

// Makes the list the same as these numbers, for which it has room.
fn copy_numbers(from: &[u32], to: &mut Vec<u32>)
    requires room { length from.now ≤ vec_capacity to.old }
    ensures numbers { to.new.items ≡ from.now }
    ensures room { vec_capacity to.old ≤ vec_capacity to.new }
{
    to.clear();
    let Ok(()) = to.extend_from_slice(from) else {
        unreachable!();
    };
}

/// Makes the list the same as these elements, for which it has room, with no more room than before. What the list had
/// is written over.
pub(crate) fn write_over<T: Copy>(from: &[T], to: &mut Vec<T>)
    requires room { length from.now ≤ vec_capacity to.old }
    ensures elements { to.new.items ≡ from.now }
    ensures room { vec_capacity to.new ≡ vec_capacity to.old }
{
    let over = from.len().min(to.len());
    to.truncate(over);
    to.copy_from_slice(&from[..over]);
    for element in &from[over..] {
        to.push_reserved(*element);
    }
}

/// Grants of nothing at so many ports, and a board of so many coflows with its publisher and a first seat.
pub fn first_parts(
    alloc: Global,
    ports: u32,
    coflows: u32,
) -> Result<(Granted, RankBoard, Publisher, RankSeat), NoMemory>
    ensures ports { IfOk result (λ made. made.0.ports ≡ ports) }
    ensures coflows { IfOk result (λ made. made.1.coflows ≡ coflows) }
    ensures publisher { IfOk result (λ made. made.2 ≡ first_publisher made.1.table) }
    ensures seat { IfOk result (λ made. made.3 ≡ new_seat made.1.table made.3.id 0) }
{
    let granted = Granted::new(alloc, ports)?;
    let (board, publisher, rank) = RankBoard::new(alloc, coflows)?;
    Ok((granted, board, publisher, rank))
}
