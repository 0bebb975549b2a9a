//! The settling and the notes of a run, and its close.
ghost use Rattle.std.specs.Prelude.{◌≡◌, ◌==◌, ℕ, ◌+◌, ◌<◌, ◌≤◌, true, All, Contains, IsTrue, List, [], length, map, Option, None, position, slice_index, Some, vec_capacity};
ghost use Rattle.journal.specs.declared.command.Command.TheVariants.{Close, Short};
ghost use Rattle.journal.specs.declared.command.Entry.{Entry};
ghost use Rattle.journal.specs.Driven.{Drive, driven, IsUnderWay, sent_from};
ghost use Rattle.journal.specs.Runs.{grant_in};
ghost use Rattle.port_board.specs.declared.view.Grant.{Grant};
ghost use Rattle.port_board.specs.Agreement.{NobodyHad};
ghost use Rattle.port_board.specs.Views.{is_unsettled, last_at};
ghost use Rattle.client_session.specs.declared.receipt.Receipt.{Receipt};
ghost use Rattle.client_session.specs.Drivers.{IsDrivenOn, StaysInHall};
ghost use Rattle.client_session.specs.Models.{IsDriverOf};
ghost use Rattle.slot_runner.specs.Settling.{AreNoted, AreSettled, AreToSettle, IsFirstShort, IsListedSent, IsOpenRunOf, IsSettledBy};

use client_session::{Answer, Driver, Hall};
use port_board::{PortBoard, Poster, Settled};
use std::sync::Wait;

/// Settles the post of each granted flow, once all agents came back. The list becomes the units that were sent of each,
/// in the order of the flows. It has room for one number for each port.
pub fn settle_ports(
    hall: &Hall,
    driver: &Driver,
    board: &PortBoard,
    poster: &mut Poster,
    sent: &mut Vec<u64>,
)
    requires own { IsDriverOf hall.now driver.now × (poster.old.at ≡ board.now.id) }
    requires ports { board.now.ports ≡ hall.now.setting.opening.table.ports }
    requires room { board.now.ports ≤ vec_capacity sent.old }
    requires run { (before : List Entry) × (d : Drive) ×
        IsOpenRunOf hall.now.setting.opening before d driver.now ×
        AreToSettle (grant_in hall.now.setting.opening.table.flows (driven hall.now.setting.opening before d))
        d.sent d.first d.slots board.now.ports poster.old.view }
    ensures own { poster.new.at ≡ poster.old.at }
    ensures room { vec_capacity sent.new ≡ vec_capacity sent.old }
    ensures settled { (before : List Entry) (d : Drive) → IsOpenRunOf hall.now.setting.opening before d driver.now →
        AreToSettle (grant_in hall.now.setting.opening.table.flows (driven hall.now.setting.opening before d))
        d.sent d.first d.slots board.now.ports poster.old.view →
        AreSettled hall.now.setting.opening.table.flows (driven hall.now.setting.opening before d)
        d.sent d.first d.slots poster.old.view poster.new.view board.now.ports }
    ensures sent { (before : List Entry) (d : Drive) → IsOpenRunOf hall.now.setting.opening before d driver.now →
        AreToSettle (grant_in hall.now.setting.opening.table.flows (driven hall.now.setting.opening before d))
        d.sent d.first d.slots board.now.ports poster.old.view →
        sent.new.items ≡ map (sent_from hall.now.setting.opening.table.flows d)
        (driven hall.now.setting.opening before d) }
{
    let _within = hall.coflows();
    let _seen = driver.made();
    sent.clear();
    for port in driver.granted_ports() {
        sent.push_reserved(settle_port(board, poster, *port));
    }
}

/// Notes each port from which fewer units were sent than the run has slots, by number. The list has what was sent of
/// each granted flow, in the order of the flows. The answer is the first such port, with what was sent from it.
pub fn note_short_ports<R: Wait>(
    rt: &R,
    hall: &Hall,
    driver: &mut Driver,
    board: &PortBoard,
    sent: &[u64],
    length: u64,
) -> Option<(u32, u64)>
    requires own { IsDriverOf hall.now driver.old }
    requires ports { board.now.ports ≡ hall.now.setting.opening.table.ports }
    requires run { (before : List Entry) × (d : Drive) × (length ≡ d.slots) ×
        IsOpenRunOf hall.now.setting.opening before d driver.old ×
        IsListedSent hall.now.setting.opening before d sent.now }
    ensures noted { (before : List Entry) (d : Drive) → length ≡ d.slots →
        IsOpenRunOf hall.now.setting.opening before d driver.old →
        IsListedSent hall.now.setting.opening before d sent.now →
        AreNoted hall.now.setting.opening before d driver.old driver.new board.now.ports }
    ensures first_short { (before : List Entry) (d : Drive) → length ≡ d.slots →
        IsOpenRunOf hall.now.setting.opening before d driver.old →
        IsListedSent hall.now.setting.opening before d sent.now →
        IsFirstShort (grant_in hall.now.setting.opening.table.flows (driven hall.now.setting.opening before d))
        d.sent d.slots board.now.ports result }
{
    if are_whole(sent, length) {
        return None;
    }
    let _seen = driver.made();
    let mut fault = None;
    for port in 0..board.ports() {
        let Some(units) = units_at(driver.granted_ports(), sent, port) else {
            continue;
        };
        if units == length {
            continue;
        }
        note(rt, hall, driver, port, units);
        fault = fault.or(Some((port, units)));
    }
    fault
}

// Tests that of each flow so many units were sent as the run has slots.
fn are_whole(sent: &[u64], length: u64) -> bool
    ensures { IsTrue result → All (λ units. units ≡ length) sent.now }
{
    sent.iter().all(|units| *units == length)
}

// What was sent from a port, where the list has it: the two lists have each port with its units.
fn units_at(ports: &[u32], sent: &[u64], port: u32) -> Option<u64>
    requires { length sent.now ≡ length ports.now }
    ensures found { (units : ℕ) → result ≡ Some units →
        (k : ℕ) × (k < length ports.now) × (slice_index ports.now k ≡ port) × (slice_index sent.now k ≡ units) }
    ensures none { result ≡ None → Contains ports.now port → ⊥ }
{
    let place = find_place(ports, port)?;
    Some(sent[place])
}

// The place of a port in a list of ports.
fn find_place(ports: &[u32], port: u32) -> Option<usize>
    ensures { result ≡ position (λ p. p == port) ports.now }
{
    ports.iter().position(|p| *p == port)
}

// Settles the post of a port that an agent had, once all agents came back: how many units were sent.
fn settle_port(board: &PortBoard, poster: &mut Poster, port: u32) -> u64
    requires own { poster.old.at ≡ board.now.id }
    requires port { port < board.now.ports }
    requires waits { is_unsettled port poster.old.view.posts poster.old.view.settled ≡ true }
    requires none_out { length poster.old.view.back ≡ poster.old.view.made }
    requires somebody { (g : Grant) × (last_at port poster.old.view.posts ≡ Some g) ×
        (NobodyHad g poster.old.view → ⊥) }
    ensures own { poster.new.at ≡ poster.old.at }
    ensures sent { (g : Grant) → last_at port poster.old.view.posts ≡ Some g →
        IsSettledBy poster.old.view poster.new.view g result }
{
    match board.settle(poster, port) {
        Settled::Sent(sent) => sent,
        Settled::TakenBack => unreachable!(),
        Settled::Busy(_word) => unreachable!(),
    }
}

// Notes what was sent from a port in the run that is under way. The journal has room for the note, and the driver a call.
fn note<R: Wait>(rt: &R, hall: &Hall, driver: &mut Driver, port: u32, sent: u64)
    requires own { IsDriverOf hall.now driver.old }
    requires port { port < hall.now.setting.opening.table.ports }
    requires call { 1 ≤ driver.old.left }
    requires run { (before : List Entry) × (d : Drive) ×
        IsUnderWay hall.now.setting.opening before driver.old.journal d }
    ensures place { StaysInHall driver.old driver.new }
    ensures done { (r : Receipt) × IsDrivenOn hall.now.setting.opening (Short port sent) driver.old driver.new r }
{
    match driver.short(rt, hall, port, sent) {
        Answer::Done(_receipt) => (),
        Answer::Full(_count) => unreachable!(),
        Answer::Spent => unreachable!(),
    }
}

/// Closes the run that is under way. The journal has room for the entry, and the driver a call.
pub fn close_run<R: Wait>(rt: &R, hall: &Hall, driver: &mut Driver)
    requires own { IsDriverOf hall.now driver.old }
    requires call { 1 ≤ driver.old.left }
    requires run { (before : List Entry) × (d : Drive) ×
        IsUnderWay hall.now.setting.opening before driver.old.journal d }
    ensures place { StaysInHall driver.old driver.new }
    ensures done { (r : Receipt) × IsDrivenOn hall.now.setting.opening Close driver.old driver.new r }
{
    match driver.close_run(rt, hall) {
        Answer::Done(_receipt) => (),
        Answer::Full(_count) => unreachable!(),
        Answer::Spent => unreachable!(),
    }
}
