//! The grants that are kept.
ghost use Rattle.std.specs.Prelude.{◌≡◌, ◌≢◌, ℕ, ◌+◌, ◌<◌, ◌≤◌, ◌^◌, ◌↔◌, List, [], All, Contains, IfOk, Some, length, map, slice_index};
ghost use Rattle.coflow_units.specs.declared.fabric.Flow.{Flow};
ghost use Rattle.coflow_units.specs.Flows.{IsDistinct, ingress_of};
ghost use Rattle.coflow_units.specs.LeastLeft.{IsLeastLeft};
ghost use Rattle.coflow_units.specs.Starts.{IsStarts};
ghost use Rattle.matching.specs.Matching.{IsGrantedAt, IsLess, IsMatching, IsRunLess, IsSettled, listed_in, ports_listed_in, ports_of, room_of};

use crate::tables::Tables;
use coflow_units::{Flow, NoMemory};
use std::alloc::Global;
use std::marker::Model;

/// The grants of a line of coflows, kept while the granted flows lose units: each flow of the line that owes is
/// granted, or shares a port with a granted one that comes before it.
///
/// A change of grants is a repair, and not a new pass over all flows. Where a flow ends, its two ports wait for a look.
/// A look at a port finds the first flow there that owes and comes before what is granted at both of its ports. That
/// flow is granted, and what it displaces leaves its other port waiting. When no port waits, the grants are those of
/// the line. Where many flows end at once, one pass over the flows from the first of them on takes less time: in each
/// row of flows that begin at one port, the first that owes and finds its other port free is granted. So displaced
/// proposals are repaired in deferred acceptance (Gale and Shapley, "College admissions and the stability of marriage",
/// The American Mathematical Monthly 69, 1962), with one order of all flows in place of each side's own.
///
/// Contracts see a `Matching` as its tables; `IsMatching` and `IsSettled` say which flows, line and units left they are
/// tables of. No call but `with_room` takes memory.
#[derive(Drop)]
pub struct Matching {
    tables: Tables,
}

impl Model for Matching {
    ghost use Rattle.matching.specs.declared.tables.Tables.{Tables};

    ghost Value = { Tables };

    ghost use Rattle.matching.specs.Matching.{IsWhole};

    ghost view = { λ m. m.tables };

    ghost invariant = { λ m. IsWhole m.tables };
}

impl Matching {
    /// Takes all memory that the grants of so many flows on a fabric of `ports` ports on each side will ever need.
    /// Nothing is granted yet. The error is want of memory.
    pub fn with_room(alloc: Global, flows: u32, ports: u32) -> Result<Matching, NoMemory>
        requires { ports + ports < 2 ^ 32 }
        ensures room { IfOk result (λ m. room_of m ≡ flows) }
        ensures ports { IfOk result (λ m. ports_of m ≡ ports) }
        ensures none { IfOk result (λ m. listed_in m ≡ []) }
    {
        let tables = Tables::with_room(alloc, flows, ports)?;
        Ok(Matching { tables })
    }

    /// Begins anew with the coflows of the line and the units that each flow has left, and grants.
    ///
    /// `starts` has for each coflow the number of its first flow, and the number of flows at its end. A coflow that
    /// `line` leaves out has no grant.
    pub fn begin(&mut self, flows: &[Flow], starts: &[u32], line: &[u32], left: &[u64])
        requires starts { IsStarts flows.now starts.now }
        requires distinct { IsDistinct line.now }
        requires coflows { All (λ c. c + 1 < length starts.now) line.now }
        requires left { length left.now ≡ length flows.now }
        requires ingress_in_range { All (λ (x : Flow). x.ingress < ports_of self.old) flows.now }
        requires egress_in_range { All (λ (x : Flow). x.egress < ports_of self.old) flows.now }
        requires room { length flows.now ≤ room_of self.old }
        ensures settled { IsSettled flows.now line.now (λ f. slice_index left.now f) self.new }
        ensures room { room_of self.new ≡ room_of self.old }
        ensures ports { ports_of self.new ≡ ports_of self.old }
    {
        self.tables.begin(flows, starts, line, left);
    }

    /// The granted flows, ascending, as they were after the last `begin` or `repair`.
    pub fn flows(&self) -> &[u32]
        ensures { result.now ≡ listed_in self.now }
    {
        &self.tables.listing.flows
    }

    /// The ingress port of each granted flow, in the order of `flows`, as they were after the last `begin` or `repair`.
    pub fn ports(&self) -> &[u32]
        ensures ports { (flows : List Flow) (line : List ℕ) (left : ℕ → ℕ) → IsSettled flows line left self.now →
            result.now ≡ map (ingress_of flows) (listed_in self.now) }
        ensures count { length result.now ≡ length (listed_in self.now) }
        ensures listed { result.now ≡ ports_listed_in self.now }
        ensures taken { (flows : List Flow) (line : List ℕ) (left : ℕ → ℕ) → IsMatching flows line left self.now →
            ports_listed_in self.now ≡ map (ingress_of flows) (listed_in self.now) }
    {
        &self.tables.listing.ports
    }

    /// How many flows `flows` has.
    pub fn count(&self) -> u32
        ensures { result ≡ length (listed_in self.now) }
    {
        self.tables.listing.flows.len() as u32
    }

    /// The flow that is granted at an ingress. None comes exactly where none is granted there, or the ingress is none
    /// of the fabric's.
    pub fn at(&self, ingress: u32) -> Option<u32>
        ensures { (f : ℕ) → (result ≡ Some f) ↔ IsGrantedAt self.now ingress f }
    {
        let flow = self.tables.at(ingress);
        flow
    }

    /// For how many slots the grants may be served as they are: the least units left among them, and 0 where nothing is
    /// granted.
    pub fn least_left(&self) -> u64
        ensures { (flows : List Flow) (line : List ℕ) (left : ℕ → ℕ) → IsSettled flows line left self.now →
            IsLeastLeft left (listed_in self.now) result }
    {
        let least = self.tables.least_left();
        least
    }

    /// The flow that is granted at an ingress loses so many units, or all that it has. Where none are left, it is not
    /// granted any longer. `repair` is due then.
    pub fn take(&mut self, ingress: u32, units: u64)
        requires { ingress < ports_of self.old }
        ensures matching { (flows : List Flow) (line : List ℕ) (left lower : ℕ → ℕ) (f : ℕ) →
            IsGrantedAt self.old ingress f → IsMatching flows line left self.old → IsLess left lower f units →
            IsMatching flows line lower self.new }
        ensures others { (i f : ℕ) → i ≢ ingress → IsGrantedAt self.old i f → IsGrantedAt self.new i f }
        ensures room { room_of self.new ≡ room_of self.old }
        ensures ports { ports_of self.new ≡ ports_of self.old }
    {
        self.tables.take(ingress, units);
    }

    /// Each granted flow loses so many units, or all that it has. Where none are left, it is not granted any longer.
    /// `repair` is due then.
    pub fn take_run(&mut self, units: u64)
        ensures matching { (flows : List Flow) (line : List ℕ) (left lower : ℕ → ℕ) →
            IsSettled flows line left self.old → IsRunLess left lower (listed_in self.old) units →
            IsMatching flows line lower self.new }
        ensures room { room_of self.new ≡ room_of self.old }
        ensures ports { ports_of self.new ≡ ports_of self.old }
    {
        self.tables.take_run(units);
    }

    /// Grants anew what the flows that ended left free.
    pub fn repair(&mut self)
        ensures settled { (flows : List Flow) (line : List ℕ) (left : ℕ → ℕ) → IsMatching flows line left self.old →
            IsSettled flows line left self.new }
        ensures room { room_of self.new ≡ room_of self.old }
        ensures ports { ports_of self.new ≡ ports_of self.old }
    {
        self.tables.repair();
    }
}
