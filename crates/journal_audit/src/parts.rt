//! Where two schedules part.
ghost use Rattle.std.specs.Prelude.{◌≡◌, ◌-◌, ◌≤◌, IfOk, IsTrue, ◌↔◌, MatchOption, length};
ghost use Rattle.coflow_units.specs.declared.limits.TheConstants.{MAX_SLOT};
ghost use Rattle.schedule_model.specs.RunList.{IsKept, slots_in};
ghost use Rattle.journal_audit.specs.ClaimsLooked.{HaveInCommon};
ghost use Rattle.journal_audit.specs.Parted.{IsPartedAt};
ghost use Rattle.run_list.specs.Runs.{run_of};

use coflow_units::NoMemory;
use run_list::Runs;
use std::alloc::Global;

/// The first slot, counted from 1, at which the schedules of two lists of runs part, the stated ones and the real ones:
/// the slots differ, or one schedule has ended. None where they are the same. The error is want of memory.
pub fn first_parted_slot(alloc: Global, stated: &Runs, real: &Runs) -> Result<Option<u64>, NoMemory>
    requires stated { IsKept stated.now }
    requires real { IsKept real.now }
    ensures { IfOk result (λ slot. MatchOption slot (slots_in stated.now ≡ slots_in real.now)
        (λ slot. (1 ≤ slot) × IsPartedAt (slots_in stated.now) (slots_in real.now) (slot - 1))) }
{
    let mut stated_walk = stated.walk(alloc)?;
    let mut real_walk = real.walk(alloc)?;
    let mut passed = 0;
    let few = stated.count().min(real.count());
    for _index in 0..few {
        let slots = stated_walk.enter();
        let others = real_walk.enter();
        if let Some(common) = common_slots(slots, stated_walk.flows(), others, real_walk.flows()) {
            return Ok(Some(passed + common + 1));
        }
        passed += slots;
    }
    if stated.count() == real.count() {
        return Ok(None);
    }
    Ok(Some(passed + 1))
}

/// How many slots two runs have in common, where they are not the same: a stated one of so many slots and a real one,
/// with their flows.
fn common_slots(slots: u64, flows: &[u32], real: u64, real_flows: &[u32]) -> Option<u64>
    ensures { MatchOption result ((slots ≡ real) × (flows.now ≡ real_flows.now))
        (HaveInCommon (run_of slots flows.now) (run_of real real_flows.now)) }
{
    if !is_same_slot(flows, real_flows) {
        return Some(0);
    }
    if slots == real {
        return None;
    }
    Some(slots.min(real))
}

fn is_same_slot(stated: &[u32], real: &[u32]) -> bool
    ensures { IsTrue result ↔ (stated.now ≡ real.now) }
{
    stated == real
}

/// How many slots the runs have, which may be as many as a schedule has at most.
pub fn slots_in(runs: &Runs) -> u64
    requires { length (slots_in runs.now) ≤ MAX_SLOT }
    ensures { result ≡ length (slots_in runs.now) }
{
    let mut slots = 0;
    for place in 0..runs.count() {
        slots += runs.slots(place);
    }
    slots
}
