//! The actions of an online run but its runs, each with what is kept of it.
ghost use Rattle.std.specs.Prelude.{◌≡◌, ◌<◌, ◌≤◌, ℕ, OnOk, length, vec_capacity};
ghost use Rattle.epochs.specs.declared.action.Action.TheVariants.{Publish, Register, Skip, Withdraw};
ghost use Rattle.port_load.specs.LoadTable.{IsSameSize};
ghost use Rattle.hall_online.specs.Beside.{KeepsAllElse};
ghost use Rattle.hall_online.specs.Serving.{IsDoneFrom, MayDo, SendsNothing};

use crate::turns::{join, leave, pass, publish};
use client_session::Hall;
use coflow_units::{NoMemory, Place};
use flow_table::Table;
use online_runs::{Progress, epoch_of};
use outside::Wire;
use port_load::Loads;
use slot_runner::Crew;
use std::alloc::Global;
use std::sync::Wait;

/// A coflow joins.
pub(crate) fn act_join<R: Wait, W: Wire>(
    rt: &R,
    hall: &Hall,
    crew: &mut Crew<W>,
    progress: &mut Progress,
    coflow: u32,
)
    requires may { MayDo hall.now crew.old.runner progress.old (Register coflow) }
    ensures done { IsDoneFrom hall.now crew.old.runner crew.new.runner progress.old progress.new (Register coflow) }
    ensures longer { length crew.old.runner.driver.journal < length crew.new.runner.driver.journal }
    ensures sends { SendsNothing hall.now crew.old.runner crew.new.runner }
    ensures keeps { KeepsAllElse crew.old crew.new }
{
    join(rt, hall, crew, coflow);
    progress.present[coflow as usize] = true;
}

/// A coflow leaves.
pub(crate) fn act_leave<R: Wait, W: Wire>(
    rt: &R,
    hall: &Hall,
    crew: &mut Crew<W>,
    progress: &mut Progress,
    coflow: u32,
)
    requires may { MayDo hall.now crew.old.runner progress.old (Withdraw coflow) }
    ensures done { IsDoneFrom hall.now crew.old.runner crew.new.runner progress.old progress.new (Withdraw coflow) }
    ensures longer { length crew.old.runner.driver.journal < length crew.new.runner.driver.journal }
    ensures sends { SendsNothing hall.now crew.old.runner crew.new.runner }
    ensures keeps { KeepsAllElse crew.old crew.new }
{
    leave(rt, hall, crew, coflow);
    progress.present[coflow as usize] = false;
}

/// What a publishing needs: room for the places of an order, and a table of loads.
#[derive(Drop)]
pub(crate) struct Orders {
    pub(crate) places: Vec<Place>,
    pub(crate) loads: Loads,
}

/// An order is published. The error is want of memory.
pub(crate) fn act_publish<R: Wait, W: Wire>(
    alloc: Global,
    rt: &R,
    hall: &Hall,
    crew: &mut Crew<W>,
    table: &Table,
    orders: &mut Orders,
    progress: &mut Progress,
) -> Result<(), NoMemory>
    requires may { MayDo hall.now crew.old.runner progress.old Publish }
    requires table { table.now ≡ hall.now.setting.opening.table }
    requires places { length table.now.ids ≤ vec_capacity orders.old.places }
    requires coflows { orders.old.loads.coflows ≡ length table.now.ids }
    requires ports { orders.old.loads.ports ≡ table.now.ports }
    ensures done { OnOk result
        (IsDoneFrom hall.now crew.old.runner crew.new.runner progress.old progress.new Publish) }
    ensures longer { length crew.old.runner.driver.journal < length crew.new.runner.driver.journal }
    ensures sends { SendsNothing hall.now crew.old.runner crew.new.runner }
    ensures keeps { KeepsAllElse crew.old crew.new }
    ensures capacity { vec_capacity orders.new.places ≡ vec_capacity orders.old.places }
    ensures size { IsSameSize orders.old.loads orders.new.loads }
{
    publish(rt, hall, crew, &mut orders.places);
    let epoch = epoch_of(
        alloc,
        table,
        &mut orders.loads,
        progress.time,
        &orders.places,
        &progress.left,
        &progress.present,
    )?;
    progress.epochs.push(epoch)?;
    Ok(())
}

/// Slots pass, up to the one before this slot. The error is want of memory.
pub(crate) fn act_pass<R: Wait, W: Wire>(
    rt: &R,
    hall: &Hall,
    crew: &mut Crew<W>,
    progress: &mut Progress,
    to: u64,
) -> Result<(), NoMemory>
    requires may { MayDo hall.now crew.old.runner progress.old (Skip to) }
    ensures done { OnOk result
        (IsDoneFrom hall.now crew.old.runner crew.new.runner progress.old progress.new (Skip to)) }
    ensures longer { length crew.old.runner.driver.journal < length crew.new.runner.driver.journal }
    ensures sends { SendsNothing hall.now crew.old.runner crew.new.runner }
    ensures keeps { KeepsAllElse crew.old crew.new }
{
    pass(rt, hall, crew, to);
    progress.schedule.push_run(to - 1 - progress.time, &[])?;
    progress.time = to - 1;
    Ok(())
}
