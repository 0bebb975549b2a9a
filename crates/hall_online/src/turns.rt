//! The turns of a driver that is alone in its hall. All else of its crew stays as it is.
ghost use Rattle.std.specs.Prelude.{◌≡◌, ◌<◌, ◌≤◌, length, vec_capacity};
ghost use Rattle.bssi_order.specs.Order.{IsOrder};
ghost use Rattle.journal.specs.declared.command.Command.TheVariants.{Publish, Register, Skip, Withdraw};
ghost use Rattle.journal.specs.declared.command.Reply.TheVariants.{Skipped};
ghost use Rattle.journal.specs.Answer.{answer};
ghost use Rattle.journal.specs.Fold.{state_of};
ghost use Rattle.journal.specs.Journal.{left_at};
ghost use Rattle.hall_online.specs.Beside.{KeepsAllElse};
ghost use Rattle.hall_online.specs.Halls.{HasAsked, IsReady};

use client_session::{Answer, Hall};
use coflow_units::Place;
use outside::Wire;
use slot_runner::Crew;
use std::sync::Wait;

/// The coflow joins. The journal has room.
pub(crate) fn join<R: Wait, W: Wire>(rt: &R, hall: &Hall, crew: &mut Crew<W>, coflow: u32)
    requires ready { IsReady hall.now crew.old.runner }
    requires room { length crew.old.runner.driver.journal < hall.now.setting.opening.limit }
    requires coflow { coflow < length hall.now.setting.opening.table.ids }
    ensures ready { IsReady hall.now crew.new.runner }
    ensures asked { HasAsked hall.now.setting.opening (Register coflow) crew.old.runner crew.new.runner }
    ensures keeps { KeepsAllElse crew.old crew.new }
{
    let Answer::Done(_receipt) = crew.driver().register(rt, hall, coflow) else {
        unreachable!();
    };
}

/// The coflow leaves. The journal has room.
pub(crate) fn leave<R: Wait, W: Wire>(rt: &R, hall: &Hall, crew: &mut Crew<W>, coflow: u32)
    requires ready { IsReady hall.now crew.old.runner }
    requires room { length crew.old.runner.driver.journal < hall.now.setting.opening.limit }
    requires coflow { coflow < length hall.now.setting.opening.table.ids }
    ensures ready { IsReady hall.now crew.new.runner }
    ensures asked { HasAsked hall.now.setting.opening (Withdraw coflow) crew.old.runner crew.new.runner }
    ensures keeps { KeepsAllElse crew.old crew.new }
{
    let Answer::Done(_receipt) = crew.driver().withdraw(rt, hall, coflow) else {
        unreachable!();
    };
}

/// The order of what is left is published, and its places are listed. The journal has room.
pub(crate) fn publish<R: Wait, W: Wire>(
    rt: &R,
    hall: &Hall,
    crew: &mut Crew<W>,
    places: &mut Vec<Place>,
)
    requires ready { IsReady hall.now crew.old.runner }
    requires room { length crew.old.runner.driver.journal < hall.now.setting.opening.limit }
    requires places_fit { length hall.now.setting.opening.table.ids ≤ vec_capacity places.old }
    ensures ready { IsReady hall.now crew.new.runner }
    ensures asked { HasAsked hall.now.setting.opening Publish crew.old.runner crew.new.runner }
    ensures keeps { KeepsAllElse crew.old crew.new }
    ensures order { IsOrder (left_at hall.now.setting.opening crew.old.runner.driver.journal) places.new.items }
    ensures capacity { vec_capacity places.new ≡ vec_capacity places.old }
{
    let Answer::Done(_receipt) = crew.driver().publish_out(rt, hall, places) else {
        unreachable!();
    };
}

/// Slots pass, up to the one before this slot. The journal has room, and nobody owes anything.
pub(crate) fn pass<R: Wait, W: Wire>(rt: &R, hall: &Hall, crew: &mut Crew<W>, to: u64)
    requires ready { IsReady hall.now crew.old.runner }
    requires room { length crew.old.runner.driver.journal < hall.now.setting.opening.limit }
    requires idle { answer hall.now.setting.opening
        (state_of hall.now.setting.opening crew.old.runner.driver.journal) (Skip to) ≡ Skipped to }
    ensures ready { IsReady hall.now crew.new.runner }
    ensures asked { HasAsked hall.now.setting.opening (Skip to) crew.old.runner crew.new.runner }
    ensures keeps { KeepsAllElse crew.old crew.new }
{
    let Answer::Done(_receipt) = crew.driver().skip(rt, hall, to) else {
        unreachable!();
    };
}
