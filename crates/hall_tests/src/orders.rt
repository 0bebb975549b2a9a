//! What tests ask of drivers.
ghost use Rattle.std.specs.Prelude.{◌≡◌, ◌≤◌, length, vec_capacity};
ghost use Rattle.client_session.specs.Models.{IsDriverOf};

use client_session::{Answer, Driver, Hall};
use coflow_units::Place;
use std::sync::Wait;

/// What a driver is asked. Coflows and ports are 0 and 1.
#[derive(Clone, Copy)]
pub(crate) enum Order {
    Register(u32),
    Withdraw(u32),
    Publish,
    Open(u32),
    Short(u32, u64),
    Close,
    Skip(u64),
}

/// What a driver answers. A run of at most 0 slots is asked as one of 1 slot.
pub(crate) fn obeyed<R: Wait>(
    rt: &R,
    hall: &Hall,
    driver: &mut Driver,
    places: &mut Vec<Place>,
    order: Order,
) -> Answer
    requires own { IsDriverOf hall.now driver.old }
    requires coflows { length hall.now.setting.opening.table.ids ≡ 2 }
    requires ports { 2 ≤ hall.now.setting.opening.table.ports }
    requires room { 2 ≤ vec_capacity places.old }
    ensures own { IsDriverOf hall.entry.now driver.new }
    ensures room { vec_capacity places.new ≡ vec_capacity places.old }
{
    match order {
        Order::Register(coflow) => driver.register(rt, hall, coflow % 2),
        Order::Withdraw(coflow) => driver.withdraw(rt, hall, coflow % 2),
        Order::Publish => driver.publish_out(rt, hall, places),
        Order::Open(most) => driver.open_run(rt, hall, u64::from(most).max(1)),
        Order::Short(port, sent) => driver.short(rt, hall, port % 2, sent),
        Order::Close => driver.close_run(rt, hall),
        Order::Skip(to) => driver.skip(rt, hall, to),
    }
}
