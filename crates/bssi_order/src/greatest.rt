//! The port with the greatest load.
ghost use Rattle.std.specs.Prelude.{◌≡◌, ℕ, ◌+◌, ◌*◌, ◌/◌, ◌<◌, ◌≤◌, length, min};
ghost use Rattle.coflow_units.specs.declared.fabric.Side.TheVariants.{Egress, Ingress};
ghost use Rattle.bssi_order.specs.Step.{IsGreatestOn, IsGreatestPort};
ghost use Rattle.bssi_order.specs.Bounds.{AreBounds, IsBounded, IsFirstGreatest};

use coflow_units::{Port, Side};
use port_load::Loads;

/// How many blocks of 64 ports a side has at most.
pub(crate) const BLOCKS: usize = 17;

/// The first port with the greatest load. Each block of 64 ports of a side has a bound above which none of its totals
/// is. A block whose bound is not above what was found before it is passed by, and each other one is looked at, and has
/// the greatest of its totals as its bound afterwards. So few blocks are looked at where the loads fell little since
/// the last time.
pub(crate) fn greatest_port(loads: &Loads, ingress: &mut [u64], egress: &mut [u64]) -> Port
    requires ingress_len { length ingress.old ≡ BLOCKS }
    requires egress_len { length egress.old ≡ BLOCKS }
    requires ingress_bounded { IsBounded loads.now Ingress ingress.old }
    requires egress_bounded { IsBounded loads.now Egress egress.old }
    ensures ingress_bounded { IsBounded loads.now Ingress ingress.new }
    ensures egress_bounded { IsBounded loads.now Egress egress.new }
    ensures greatest { IsGreatestPort loads.now result }
{
    let ingress = greatest_on(loads, Side::Ingress, ingress);
    let egress = greatest_on(loads, Side::Egress, egress);
    if loads.total(egress) > loads.total(ingress) {
        egress
    } else {
        ingress
    }
}

fn greatest_on(loads: &Loads, side: Side, bounds: &mut [u64]) -> Port
    requires len { length bounds.old ≡ BLOCKS }
    requires bounded { IsBounded loads.now side bounds.old }
    ensures bounded { IsBounded loads.now side bounds.new }
    ensures greatest { IsGreatestOn loads.now side result }
{
    let totals = loads.totals(side);
    let blocks = (loads.ports() as usize - 1) / 64 + 1;
    let best = first_greatest(totals, bounds, blocks);
    Port {
        side,
        number: best as u32,
    }
}

/// The place of the first of the greatest totals, which fill so many blocks.
fn first_greatest(totals: &[u64], bounds: &mut [u64], blocks: usize) -> usize
    requires some { 0 < length totals.now }
    requires all { length totals.now ≤ 64 * blocks }
    requires none_empty { 64 * blocks < length totals.now + 64 }
    requires room { blocks ≤ length bounds.old }
    requires bounded { AreBounds totals.now bounds.old }
    ensures bounded { AreBounds totals.now bounds.new }
    ensures greatest { IsFirstGreatest totals.now 0 (length totals.now) result }
{
    let mut best = 0;
    for block in 0..blocks {
        let most = totals[best];
        let bound = bounds[block];
        if bound <= most {
            continue;
        }
        let here = first_in_block(totals, block);
        let found = totals[here];
        bounds[block] = found;
        if found > most {
            best = here;
        }
    }
    best
}

/// The place of the first of the greatest totals of a block.
fn first_in_block(totals: &[u64], block: usize) -> usize
    requires { 64 * block < length totals.now }
    ensures { IsFirstGreatest totals.now (64 * block) (min (64 * block + 64) (length totals.now)) result }
{
    let start = 64 * block;
    let end = (start + 64).min(totals.len());
    let mut best = start;
    let mut most = totals[start];
    for place in start + 1..end {
        let total = totals[place];
        if total > most {
            best = place;
            most = total;
        }
    }
    best
}
