//! The room for the grants of a slot, and the grants.
ghost use Rattle.std.specs.Prelude.{◌≡◌, ℕ, ◌<◌, ◌≤◌, ◌+◌, [], None, All, IfOk, length, slice_index};
ghost use Rattle.coflow_units.specs.declared.fabric.Flow.{Flow};
ghost use Rattle.coflow_units.specs.Flows.{IsDistinct};
ghost use Rattle.coflow_units.specs.Grants.{IsGrants};
ghost use Rattle.greedy_rates.specs.Owed.{IsOwed};
ghost use Rattle.coflow_units.specs.LeastLeft.{IsLeastLeft};
ghost use Rattle.greedy_rates.specs.Room.{TellsIngresses, flow_at_ingress};
ghost use Rattle.coflow_units.specs.Starts.{IsStarts};

use crate::owed_pass;
use crate::owing::Owing;
use crate::pass::{self, Granted};
use coflow_units::{Flow, NoMemory};
use std::alloc::Global;
use std::marker::Model;

/// The room for the grants of a slot, and the flows that were granted last.
///
/// Contracts see a `Scratch` as its number of ports on each side, the granted flows, and for each ingress the flow that
/// stands at it.
#[derive(Drop)]
pub struct Scratch {
    /// The granted flows, ascending, in the first `count` places.
    listed: Vec<u32>,
    count: u32,
    /// For each ingress the flow that stands at it.
    ingress: Vec<Option<u32>>,
    /// For each egress whether a granted flow ends there.
    busy: Vec<bool>,
}

impl Model for Scratch {
    ghost use Rattle.std.specs.Prelude.{length, take};
    ghost use Rattle.greedy_rates.specs.Room.{Grants, HasRoom};

    ghost Value = { Grants };

    ghost view = { λ s. record {
      ports = length s.ingress.items;
      flows = take s.count s.listed.items;
      at = s.ingress.items;
    } };

    ghost invariant = { λ s. HasRoom (length s.ingress.items) s.count (length s.listed.items) (length s.busy.items) };
}

impl Scratch {
    /// Takes the room for a fabric of `ports` ports on each side. Nothing is granted yet. The error is want of memory.
    pub fn new(alloc: Global, ports: u32) -> Result<Scratch, NoMemory>
        ensures ports { IfOk result (λ s. s.ports ≡ ports) }
        ensures flows { IfOk result (λ s. s.flows ≡ []) }
        ensures at { IfOk result (λ s. (ingress : ℕ) → flow_at_ingress s.at ingress ≡ None) }
    {
        let listed = vec![in alloc; 0; ports as usize]?;
        let ingress = vec![in alloc; None; ports as usize]?;
        let busy = vec![in alloc; false; ports as usize]?;
        Ok(Scratch {
            listed,
            count: 0,
            ingress,
            busy,
        })
    }

    /// The flows that were granted last, ascending; none before the first grants.
    pub fn flows(&self) -> &[u32]
        ensures { result.now ≡ self.now.flows }
    {
        &self.listed[..self.count as usize]
    }

    /// The flow that was granted last at an ingress. None comes exactly where the ingress has no grant, or is none of
    /// the fabric's.
    pub fn at(&self, ingress: u32) -> Option<u32>
        ensures { result ≡ flow_at_ingress self.now.at ingress }
    {
        match self.ingress.get(ingress as usize) {
            Some(flow) => *flow,
            None => None,
        }
    }
}

/// Grants the flows of a slot: coflow by coflow in the order of `line`, and within a coflow by number, each flow that
/// has units left and finds both of its ports free. This is the greedy allocation of Sincronia (Agarwal, Rajakrishnan,
/// Narayan, Agarwal, Shmoys and Vahdat, "Sincronia: near-optimal network design for coflows", SIGCOMM 2018). The
/// granted flows may be served so until the first of them has no units left.
///
/// `starts` has for each coflow the number of its first flow, and the number of flows at its end. `left` has the units
/// left of each flow. A coflow that `line` leaves out has no grant.
pub fn grants(
    scratch: &mut Scratch,
    flows: &[Flow],
    starts: &[u32],
    line: &[u32],
    left: &[u64],
) -> Granted
    requires starts { IsStarts flows.now starts.now }
    requires distinct { IsDistinct line.now }
    requires coflows { All (λ c. c + 1 < length starts.now) line.now }
    requires left { length left.now ≡ length flows.now }
    requires ingress_in_range { All (λ (x : Flow). x.ingress < scratch.old.ports) flows.now }
    requires egress_in_range { All (λ (x : Flow). x.egress < scratch.old.ports) flows.now }
    ensures grants { IsGrants flows.now line.now (λ f. slice_index left.now f) scratch.new.flows }
    ensures at { TellsIngresses flows.now scratch.new.flows scratch.new.at }
    ensures count { result.count ≡ length scratch.new.flows }
    ensures length { IsLeastLeft (λ f. slice_index left.now f) scratch.new.flows result.length }
    ensures ports { scratch.new.ports ≡ scratch.old.ports }
{
    pass::grant_line(
        &mut scratch.ingress,
        &mut scratch.busy,
        flows,
        starts,
        line,
        left,
    );
    let granted = pass::tell_granted(&scratch.ingress, &mut scratch.listed, left);
    scratch.count = granted.count;
    granted
}

/// The same as `grants` for the units left that `owing` has, with the sums that it keeps: coflows and groups of flows
/// that owe nothing are passed over, a group whose ingress is taken too, and the pass ends where no free ingress, or no
/// free egress, owes.
pub fn grants_owed(
    scratch: &mut Scratch,
    flows: &[Flow],
    starts: &[u32],
    line: &[u32],
    owing: &Owing,
) -> Granted
    requires starts { IsStarts flows.now starts.now }
    requires distinct { IsDistinct line.now }
    requires coflows { All (λ c. c + 1 < length starts.now) line.now }
    requires owed { IsOwed flows.now owing.now }
    requires sums { length starts.now ≡ length owing.now.of_coflow + 1 }
    requires ingress_in_range { All (λ (x : Flow). x.ingress < scratch.old.ports) flows.now }
    requires egress_in_range { All (λ (x : Flow). x.egress < scratch.old.ports) flows.now }
    ensures grants { IsGrants flows.now line.now (λ f. slice_index owing.now.left f) scratch.new.flows }
    ensures at { TellsIngresses flows.now scratch.new.flows scratch.new.at }
    ensures count { result.count ≡ length scratch.new.flows }
    ensures length { IsLeastLeft (λ f. slice_index owing.now.left f) scratch.new.flows result.length }
    ensures ports { scratch.new.ports ≡ scratch.old.ports }
{
    owed_pass::grant_owing_line(
        &mut scratch.ingress,
        &mut scratch.busy,
        flows,
        starts,
        line,
        owing,
    );
    let granted = pass::tell_granted(&scratch.ingress, &mut scratch.listed, owing.left());
    scratch.count = granted.count;
    granted
}
