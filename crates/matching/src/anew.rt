//! The list of the granted flows, made anew.
ghost use Rattle.std.specs.Prelude.{◌≡◌, ℕ, ◌+◌, ◌<◌, ◌≤◌, ◌^◌, length, map, slice_index, vec_capacity, vec_len};
ghost use Rattle.std.specs.List.Sorted.{IsNonDecreasingBy, IsPermutation};
ghost use Rattle.matching.specs.declared.listing.Listed.{Listed};
ghost use Rattle.matching.specs.Board.{IsRanks};
ghost use Rattle.matching.specs.Listing.{HasListingRoom, IsCollected, IsFirstSide, IsListed};

use crate::listing::{Listed, Listing};
use crate::ranks::{NONE, Ranks};

impl Listing {
    /// Lists what stands at the ports of the first side, whatever was listed before.
    pub fn list_anew(&mut self, ranks: &Ranks, at: &[u32])
        requires ranks { IsRanks ranks.now }
        requires all { length at.now ≡ ranks.now.ports }
        requires few { length at.now < 2 ^ 32 }
        requires side { IsFirstSide ranks.now at.now }
        requires room { HasListingRoom ranks.now.ports self.old }
        ensures room { HasListingRoom ranks.now.ports self.new }
        ensures listed { IsListed ranks.now self.new }
        ensures shown { self.new.shown.items ≡ at.now }
    {
        collect(ranks, at, &mut self.pairs);
        sort_by_flow(&mut self.pairs);
        split(&self.pairs, &mut self.flows, &mut self.ports);
        self.shown.copy_from_slice(at);
    }
}

/// Makes pairs of the flows that stand at the ports of the first side. There is room for them.
fn collect(ranks: &Ranks, at: &[u32], pairs: &mut Vec<Listed>)
    requires ranks { IsRanks ranks.now }
    requires few { length at.now < 2 ^ 32 }
    requires side { IsFirstSide ranks.now at.now }
    requires room { length at.now ≤ vec_capacity pairs.old }
    ensures collected { IsCollected ranks.now at.now (λ p. p < length at.now) pairs.new.items }
    ensures within { vec_len pairs.new ≤ length at.now }
    ensures room { vec_capacity pairs.old ≤ vec_capacity pairs.new }
{
    pairs.clear();
    for port in 0..at.len() as u32 {
        let rank = at[port as usize];
        if rank == NONE {
            continue;
        }
        let flow = ranks.flows[rank as usize].number;
        let _pair = pairs.push(Listed { flow, port });
    }
}

/// The pairs ascend by the numbers of their flows.
fn sort_by_flow(pairs: &mut Vec<Listed>)
    ensures moved { IsPermutation pairs.old.items pairs.new.items }
    ensures sorted { IsNonDecreasingBy (λ (x : Listed). x.flow) pairs.new.items }
    ensures len { vec_len pairs.new ≡ vec_len pairs.old }
    ensures capacity { vec_capacity pairs.new ≡ vec_capacity pairs.old }
{
    pairs.sort_unstable_by_key(|pair| pair.flow);
}

/// The lists have the flows and the ports of the pairs, in their order. There is room for them.
fn split(pairs: &[Listed], flows: &mut Vec<u32>, ports: &mut Vec<u32>)
    requires flows_room { length pairs.now ≤ vec_capacity flows.old }
    requires ports_room { length pairs.now ≤ vec_capacity ports.old }
    ensures flows { flows.new.items ≡ map (λ (x : Listed). x.flow) pairs.now }
    ensures ports { ports.new.items ≡ map (λ (x : Listed). x.port) pairs.now }
    ensures flows_capacity { vec_capacity flows.old ≤ vec_capacity flows.new }
    ensures ports_capacity { vec_capacity ports.old ≤ vec_capacity ports.new }
{
    flows.clear();
    ports.clear();
    for listed in pairs {
        let _flow = flows.push(listed.flow);
        let _port = ports.push(listed.port);
    }
}
