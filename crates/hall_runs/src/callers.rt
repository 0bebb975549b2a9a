//! The callers of a hall: each asks drawn commands, and keeps what it is answered.
ghost use Rattle.std.specs.Prelude.{◌≡◌, ◌+◌, ◌^◌, ◌<◌, ◌≤◌, All, IfOk, OnOk, length, vec_capacity};
ghost use Rattle.client_session.specs.Models.{IsDriverOf, IsSessionOf};
ghost use Rattle.hall_runs.specs.Asked.{IsAskOf, IsOrderOf};
ghost use Rattle.hall_runs.specs.Callers.{IsClientOf, IsPilotOf};

use crate::draw::{Ask, Draw, Order};
use client_session::{Answer, Driver, Hall, Session};
use coflow_units::{NoMemory, Place};
use rank_board::Pulled;
use std::alloc::Global;
use std::sync::Wait;
use std::thread;
use std::thread::Threads;

/// The greatest number of commands of a caller.
pub const MAX_EACH: u32 = 1_000_000;

/// What a caller was answered.
#[derive(Clone, Copy, Debug)]
pub enum Said {
    Turn(Answer),
    Pull(Pulled),
}

/// A client with its session.
#[derive(Drop)]
pub struct Client {
    pub session: Session,
    pub draw: Draw,
    pub said: Vec<Said>,
}

/// The driver, with a list for the places that it is handed.
#[derive(Drop)]
pub struct Pilot {
    pub driver: Driver,
    pub draw: Draw,
    pub places: Vec<Place>,
    pub said: Vec<Said>,
}

/// How many commands each caller asks, and of how many coflows and ports.
#[derive(Clone, Copy, Debug)]
pub struct Size {
    pub commands: u32,
    pub coflows: u32,
    pub ports: u32,
}

impl Client {
    /// A client with the next session. It has calls and room for all of its commands.
    pub fn new(
        alloc: Global,
        hall: &Hall,
        driver: &mut Driver,
        draw: Draw,
        commands: u32,
    ) -> Result<Client, NoMemory>
        requires own { IsDriverOf hall.now driver.old }
        requires few { driver.old.made < 2 ^ 16 }
        ensures client { IfOk result (IsClientOf hall.entry.now commands) }
        ensures driver { OnOk result (IsDriverOf hall.entry.now driver.new) }
        ensures made { OnOk result (driver.new.made ≡ driver.old.made + 1) }
    {
        let said = Vec::with_capacity(alloc, commands as usize)?;
        let session = hall.session(alloc, driver, commands)?;
        Ok(Client {
            session,
            draw,
            said,
        })
    }

    /// Asks drawn commands.
    fn play<R: Wait>(&mut self, rt: &R, hall: &Hall, size: Size)
        requires client { IsClientOf hall.now size.commands self.old }
        requires some { 1 ≤ size.coflows }
        requires coflows { size.coflows ≡ length hall.now.setting.opening.table.ids }
        ensures own { IsSessionOf hall.entry.now self.new.session }
    {
        for turn in 0..size.commands {
            let ask = self.draw.ask(size.coflows);
            let said = answer(rt, hall, &mut self.session, ask);
            self.said.push_reserved(said);
        }
    }
}

/// What a session is answered.
fn answer<R: Wait>(rt: &R, hall: &Hall, session: &mut Session, ask: Ask) -> Said
    requires own { IsSessionOf hall.now session.old }
    requires ask { IsAskOf (length hall.now.setting.opening.table.ids) ask }
    ensures own { IsSessionOf hall.entry.now session.new }
{
    let answer = match ask {
        Ask::Register(coflow) => session.register(rt, hall, coflow),
        Ask::Withdraw(coflow) => session.withdraw(rt, hall, coflow),
        Ask::Publish => session.publish(rt, hall),
        Ask::PullTurn(coflow) => session.pull_turn(rt, hall, coflow),
        Ask::Reweigh(coflow, weight) => session.reweigh(rt, hall, coflow, weight),
        Ask::Pull(coflow) => return Said::Pull(session.pull(hall, coflow)),
    };
    Said::Turn(answer)
}

/// Each client asks its commands, on a thread of its own.
pub fn play_all<R: Threads + Wait + Sync>(rt: &R, hall: &Hall, clients: &mut [Client], size: Size)
    requires clients { All (IsClientOf hall.now size.commands) clients.old }
    requires some { 1 ≤ size.coflows }
    requires coflows { size.coflows ≡ length hall.now.setting.opening.table.ids }
    ensures own { All (λ c. IsSessionOf hall.entry.now c.session) clients.new }
{
    let threads = clients.len();
    if threads > 0 {
        thread::for_each_mut(
            rt,
            clients,
            threads,
            &|_, client| { client.play(rt, hall, size) },
        );
    }
}

impl Pilot {
    /// The driver, with room for the answers to its commands and for a place of each coflow.
    pub fn new(alloc: Global, driver: Driver, draw: Draw, size: Size) -> Result<Pilot, NoMemory>
        ensures driver { IfOk result (λ p. p.driver ≡ driver) }
        ensures room { IfOk result (λ p. length p.said.items + size.commands ≤ vec_capacity p.said) }
        ensures places { IfOk result (λ p. size.coflows ≤ vec_capacity p.places) }
    {
        let Ok(places) = Vec::with_capacity(alloc, size.coflows as usize) else {
            drop(driver);
            return Err(NoMemory);
        };
        let Ok(said) = Vec::with_capacity(alloc, size.commands as usize) else {
            drop(places);
            drop(driver);
            return Err(NoMemory);
        };
        Ok(Pilot {
            driver,
            draw,
            places,
            said,
        })
    }

    /// The driver alone.
    pub fn into_driver(self) -> Driver
        ensures { result ≡ self.driver }
    {
        let Pilot {
            driver,
            draw: _,
            places: _,
            said: _,
        } = self;
        driver
    }

    /// Asks drawn commands of the driver.
    pub fn play<R: Wait>(&mut self, rt: &R, hall: &Hall, size: Size)
        requires pilot { IsPilotOf hall.now size.commands self.old }
        requires some { (1 ≤ size.coflows) × (1 ≤ size.ports) }
        requires coflows { size.coflows ≡ length hall.now.setting.opening.table.ids }
        requires ports { size.ports ≡ hall.now.setting.opening.table.ports }
        ensures own { IsDriverOf hall.entry.now self.new.driver }
    {
        for turn in 0..size.commands {
            let order = self.draw.order(size.coflows, size.ports);
            let answer = obey(rt, hall, &mut self.driver, &mut self.places, order);
            self.said.push_reserved(Said::Turn(answer));
        }
    }
}

/// What the driver is answered.
fn obey<R: Wait>(
    rt: &R,
    hall: &Hall,
    driver: &mut Driver,
    places: &mut Vec<Place>,
    order: Order,
) -> Answer
    requires own { IsDriverOf hall.now driver.old }
    requires order { IsOrderOf (length hall.now.setting.opening.table.ids) hall.now.setting.opening.table.ports order }
    requires room { length hall.now.setting.opening.table.ids ≤ vec_capacity places.old }
    ensures own { IsDriverOf hall.entry.now driver.new }
    ensures room { vec_capacity places.new ≡ vec_capacity places.old }
{
    match order {
        Order::Open(most) => driver.open_run(rt, hall, most),
        Order::Short(port, sent) => driver.short(rt, hall, port, sent),
        Order::Close => driver.close_run(rt, hall),
        Order::Skip(to) => driver.skip(rt, hall, to),
        Order::Register(coflow) => driver.register(rt, hall, coflow),
        Order::Withdraw(coflow) => driver.withdraw(rt, hall, coflow),
        Order::Publish => driver.publish_out(rt, hall, places),
    }
}
