//! The beginning of a plan: a hall whose driver registered all coflows and published their order.
ghost use Rattle.std.specs.Prelude.{◌≡◌, ◌≤◌, [], IfOk, length, vec_capacity};
ghost use Rattle.flow_table.specs.Table.{instance_of};
ghost use Rattle.bssi_order.specs.Order.{IsOrder};
ghost use Rattle.master_core.specs.Published.{ranked};
ghost use Rattle.hall_plan.specs.Halls.{IsAlone, MayPlan};
ghost use Rattle.hall_plan.specs.Journals.{beginning, HasRoom, joins, plan_order};

use client_session::{Answer, Driver, Hall};
use coflow_units::{NoMemory, Place};
use master_core::Master;
use slot_runner::Runner;
use std::alloc::Global;
use std::sync::Wait;

/// The calls of the driver: 2^40.
const CALLS: u64 = 1_099_511_627_776;

/// A hall of the master, with a runner whose driver registered all coflows in number order and published once, and the
/// places of their order. The error is want of memory, and drops the master.
pub(crate) fn begin<R: Wait>(
    alloc: Global,
    rt: &R,
    master: Master,
) -> Result<(Hall, Runner, Vec<Place>), NoMemory>
    requires empty { master.journal ≡ [] }
    requires room { HasRoom master.opening }
    ensures opening { IfOk result (λ made. made.0.setting.opening ≡ master.opening) }
    ensures runner { IfOk result (λ made. MayPlan made.0 made.1 []) }
    ensures places { IfOk result (λ made.
        IsOrder (instance_of master.opening.table master.opening.weights) made.2.items) }
    ensures order { IfOk result (λ made. ranked made.2.items ≡ plan_order master.opening) }
{
    let ports = master.table().ports();
    let Ok(mut places) = Vec::with_capacity(alloc, master.table().coflows() as usize) else {
        drop(master);
        return Err(NoMemory);
    };
    let Ok((hall, mut driver)) = Hall::begin(alloc, master, CALLS) else {
        drop(places);
        return Err(NoMemory);
    };
    register_all(rt, &hall, &mut driver);
    publish(rt, &hall, &mut driver, &mut places);
    match Runner::new(alloc, driver, ports) {
        Ok(runner) => Ok((hall, runner, places)),
        Err(back) => {
            drop(hall);
            drop(places);
            drop(back);
            Err(NoMemory)
        }
    }
}

/// Registers all coflows, in number order.
fn register_all<R: Wait>(rt: &R, hall: &Hall, driver: &mut Driver)
    requires alone { IsAlone hall.now driver.old [] }
    ensures alone { IsAlone hall.now driver.new (joins (length hall.now.setting.opening.table.ids)) }
{
    for coflow in 0..hall.coflows() {
        let Answer::Done(_receipt) = driver.register(rt, hall, coflow) else {
            unreachable!();
        };
    }
}

/// Publishes the order of all coflows, and lists its places.
fn publish<R: Wait>(rt: &R, hall: &Hall, driver: &mut Driver, places: &mut Vec<Place>)
    requires alone { IsAlone hall.now driver.old (joins (length hall.now.setting.opening.table.ids)) }
    requires room { length hall.now.setting.opening.table.ids ≤ vec_capacity places.old }
    ensures alone { IsAlone hall.now driver.new (beginning hall.now.setting.opening) }
    ensures places { IsOrder (instance_of hall.now.setting.opening.table hall.now.setting.opening.weights)
        places.new.items }
    ensures order { ranked places.new.items ≡ plan_order hall.now.setting.opening }
{
    let Answer::Done(_receipt) = driver.publish_out(rt, hall, places) else {
        unreachable!();
    };
}
