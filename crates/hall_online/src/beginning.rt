//! An online run before its first action.
ghost use Rattle.std.specs.Prelude.{◌≡◌, ◌+◌, ◌≤◌, [], All, IfOk, length, vec_capacity};
ghost use Rattle.coflow_units.specs.declared.limits.TheConstants.{MAX_ARRIVAL, MAX_COFLOWS, MAX_OPTION_SLOTS, MAX_WEIGHT};
ghost use Rattle.epochs.specs.Course.{at_first};
ghost use Rattle.online_runs.specs.Input.{online_opening};
ghost use Rattle.hall_online.specs.Halls.{IsReady};
ghost use Rattle.hall_online.specs.Serving.{IsUnderWay};

use crate::acting::Orders;
use client_session::Hall;
use coflow_units::{Items, NoMemory};
use epochs::Epochs;
use flow_table::Table;
use master_core::Master;
use online_runs::{Progress, no_progress};
use port_load::Loads;
use slot_runner::Runner;
use std::alloc::Global;

/// The calls of the driver: 2^40.
const CALLS: u64 = 1_099_511_627_776;

/// The entries of the journal that do not grow with the table.
const FURTHER_ENTRIES: u32 = 32_768;

/// What is kept of an online run beside its hall: its course, what its publishings need, and what it has come to.
#[derive(Drop)]
pub(crate) struct Kept {
    pub(crate) course: Epochs,
    pub(crate) orders: Orders,
    pub(crate) progress: Progress,
}

/// A hall with its driver, and what is kept of an online run.
#[derive(Drop)]
pub(crate) struct Begun {
    pub(crate) hall: Hall,
    pub(crate) runner: Runner,
    pub(crate) kept: Kept,
}

/// An online run before its first action.
pub(crate) fn begin(
    alloc: Global,
    table: &Table,
    weights: &[u64],
    arrivals: &[u64],
    every: u64,
) -> Result<Begun, NoMemory>
    requires weight_each { length weights.now ≡ length table.now.ids }
    requires weight_range { All (λ w. (1 ≤ w) × (w ≤ MAX_WEIGHT)) weights.now }
    requires arrival_each { length arrivals.now ≡ length table.now.ids }
    requires arrival_range { All (λ a. a ≤ MAX_ARRIVAL + 1) arrivals.now }
    requires epoch_some { 1 ≤ every }
    requires epoch_fits { every ≤ MAX_OPTION_SLOTS }
    ensures opening { IfOk result (λ b. b.hall.setting.opening ≡ online_opening table.now weights.now) }
    ensures none { IfOk result (λ b. b.runner.driver.journal ≡ []) }
    ensures under_way { IfOk result (λ b. IsUnderWay b.hall b.runner arrivals.now every b.kept.course b.kept.progress) }
    ensures places { IfOk result (λ b. length table.now.ids ≤ vec_capacity b.kept.orders.places) }
    ensures coflows { IfOk result (λ b. b.kept.orders.loads.coflows ≡ length table.now.ids) }
    ensures ports { IfOk result (λ b. b.kept.orders.loads.ports ≡ table.now.ports) }
{
    let _within = table.coflows();
    let course = course_of(alloc, arrivals, every)?;
    let Ok(orders) = no_orders(alloc, table) else {
        drop(course);
        return Err(NoMemory);
    };
    let Ok(progress) = no_progress(alloc, table) else {
        drop(course);
        drop(orders);
        return Err(NoMemory);
    };
    let Ok((hall, runner)) = hall_of(alloc, table, weights) else {
        drop(course);
        drop(orders);
        drop(progress);
        return Err(NoMemory);
    };
    Ok(Begun {
        hall,
        runner,
        kept: Kept {
            course,
            orders,
            progress,
        },
    })
}

/// What the run has come to. All else that was kept of it is let go.
pub(crate) fn progress_of(kept: Kept) -> Progress
    ensures { result ≡ kept.progress }
{
    let Kept {
        course,
        orders,
        progress,
    } = kept;
    drop(course);
    drop(orders);
    progress
}

/// A hall of a new master of the table, whose driver is alone.
fn hall_of(alloc: Global, table: &Table, weights: &[u64]) -> Result<(Hall, Runner), NoMemory>
    requires weight_each { length weights.now ≡ length table.now.ids }
    requires weight_range { All (λ w. (1 ≤ w) × (w ≤ MAX_WEIGHT)) weights.now }
    ensures opening { IfOk result (λ made. made.0.setting.opening ≡ online_opening table.now weights.now) }
    ensures ready { IfOk result (λ made. IsReady made.0 made.1) }
    ensures none { IfOk result (λ made. made.1.driver.journal ≡ []) }
{
    let limit = 4 * table.coflows() + 2 * table.flows().len() as u32 + FURTHER_ENTRIES;
    let copied = table.copy(alloc)?;
    let Ok(list) = Vec::from_slice(alloc, weights) else {
        drop(copied);
        return Err(NoMemory);
    };
    let master = Master::new(alloc, copied, Items::from_vec(list), limit)?;
    let (hall, driver) = Hall::begin(alloc, master, CALLS)?;
    match Runner::new(alloc, driver, table.ports()) {
        Ok(runner) => Ok((hall, runner)),
        Err(back) => {
            drop(hall);
            drop(back);
            Err(NoMemory)
        }
    }
}

/// The course of a run over these arrivals, before its first action.
fn course_of(alloc: Global, arrivals: &[u64], every: u64) -> Result<Epochs, NoMemory>
    requires coflows { length arrivals.now ≤ MAX_COFLOWS }
    requires arrivals_fit { All (λ a. a ≤ MAX_ARRIVAL + 1) arrivals.now }
    requires epoch_some { 1 ≤ every }
    requires epoch_fits { every ≤ MAX_OPTION_SLOTS }
    ensures { IfOk result (λ course. course ≡ at_first arrivals.now every) }
{
    let list = Vec::from_slice(alloc, arrivals)?;
    let course = Epochs::new(alloc, list, every)?;
    Ok(course)
}

/// Room for the places of an order, and a table of loads.
fn no_orders(alloc: Global, table: &Table) -> Result<Orders, NoMemory>
    ensures places { IfOk result (λ orders. length table.now.ids ≤ vec_capacity orders.places) }
    ensures coflows { IfOk result (λ orders. orders.loads.coflows ≡ length table.now.ids) }
    ensures ports { IfOk result (λ orders. orders.loads.ports ≡ table.now.ports) }
{
    let places = Vec::with_capacity(alloc, table.coflows() as usize)?;
    let Ok(loads) = Loads::of(alloc, table.flows(), table.coflows(), table.ports()) else {
        drop(places);
        return Err(NoMemory);
    };
    Ok(Orders { places, loads })
}
