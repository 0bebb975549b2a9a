//! What an online run keeps, and what it decides from it.
ghost use Rattle.std.specs.Prelude.{◌≡◌, ◌+◌, ℕ, ◌^◌, ◌<◌, ◌≤◌, ◌↔◌, All, IfOk, IsTrue, length};
ghost use Rattle.coflow_units.specs.declared.limits.TheConstants.{MAX_COFLOWS, MAX_OPTION_SLOTS, MAX_SLOT};
ghost use Rattle.epochs.specs.Course.{Course, HaveJoined, IsArrived, IsEpochStart, IsNextStop, after, at_first};
ghost use Rattle.epochs.specs.Choice.{IsFirstAction, IsIdleAction, IsOrderAction};

use crate::action::Action;
use crate::scan;
use coflow_units::{MAX_PUBLISHINGS, NoMemory};
use std::alloc::Global;
use std::marker::Model;

/// Which coflows joined and left, and when an order was published last. It decides what an online run does next, and
/// does none of it.
///
/// Contracts see an `Epochs` as its `Course`.
#[derive(Drop)]
pub struct Epochs {
    arrivals: Vec<u64>,
    every: u64,
    registered: Vec<bool>,
    withdrawn: Vec<bool>,
    /// The coflow that joins next, so that all coflows are looked at once for each that joins.
    upcoming: Option<u32>,
    last: Option<u64>,
    published: u32,
}

impl Model for Epochs {
    ghost use Rattle.epochs.specs.Course.{Course, IsSound};

    ghost Value = { Course };

    ghost view = { λ s. record {
      arrivals = s.arrivals.items;
      every = s.every;
      registered = s.registered.items;
      withdrawn = s.withdrawn.items;
      last = s.last;
      published = s.published;
    } };

    ghost invariant = { λ s. IsSound
        (record {
          arrivals = s.arrivals.items;
          every = s.every;
          registered = s.registered.items;
          withdrawn = s.withdrawn.items;
          last = s.last;
          published = s.published;
        }) s.upcoming };
}

impl Epochs {
    /// A run over coflows that arrive at these times, in slots. An epoch starts at every multiple of `every` slots.
    /// No coflow joined, and no order was published. The error is want of memory.
    pub fn new(alloc: Global, arrivals: Vec<u64>, every: u64) -> Result<Epochs, NoMemory>
        requires coflows { length arrivals.items ≤ MAX_COFLOWS }
        requires arrivals_fit { All (λ a. a ≤ 2 ^ 32) arrivals.items }
        requires epoch_some { 1 ≤ every }
        requires epoch_fits { every ≤ MAX_OPTION_SLOTS }
        ensures { IfOk result (λ e. e ≡ at_first arrivals.items every) }
    {
        let registered = vec![in alloc; false; arrivals.len()]?;
        let withdrawn = vec![in alloc; false; arrivals.len()]?;
        let upcoming = scan::first_waiting(&arrivals, &registered);
        Ok(Epochs {
            arrivals,
            every,
            registered,
            withdrawn,
            upcoming,
            last: None,
            published: 0,
        })
    }

    /// What the run does at this time, in slots, where the coflows owe so many units: the first action that applies.
    /// What is answered is kept as done: the coflow joined or left, or the order was published.
    pub fn next(&mut self, time: u64, owed: &[u64]) -> Action
        requires owed_len { length owed.now ≡ length self.old.arrivals }
        requires time_fits { time ≤ MAX_SLOT + 1 }
        ensures first { IsFirstAction self.old time owed.now result }
        ensures course { self.new ≡ after self.old time result }
        ensures coflows { self.new.arrivals ≡ self.old.arrivals }
    {
        let action = self.first_action(time, owed);
        match action {
            Action::Register(coflow) => {
                self.registered[coflow as usize] = true;
                self.upcoming = scan::first_waiting(&self.arrivals, &self.registered);
            }
            Action::Withdraw(coflow) => self.withdrawn[coflow as usize] = true,
            Action::Publish => {
                self.last = Some(time);
                self.published += 1;
            }
            Action::Run(_) | Action::Skip(_) | Action::End | Action::TooMany(_) => {}
        }
        action
    }

    /// The first action that applies.
    fn first_action(&self, time: u64, owed: &[u64]) -> Action
        requires owed_len { length owed.now ≡ length self.now.arrivals }
        requires time_fits { time ≤ MAX_SLOT + 1 }
        ensures { IsFirstAction self.now time owed.now result }
    {
        match self.arrived(time) {
            Some(coflow) => Action::Register(coflow),
            None => self.action_of_joined(time, owed),
        }
    }

    /// The coflow that joins at this time, or none where everybody who arrived has joined.
    fn arrived(&self, time: u64) -> Option<u32>
        ensures { IsArrived self.now time result }
    {
        match self.upcoming {
            Some(coflow) if self.arrivals[coflow as usize] <= time => Some(coflow),
            _ => None,
        }
    }

    /// The first action that applies, where everybody who arrived has joined.
    fn action_of_joined(&self, time: u64, owed: &[u64]) -> Action
        requires owed_len { length owed.now ≡ length self.now.arrivals }
        requires time_fits { time ≤ MAX_SLOT + 1 }
        requires joined { HaveJoined self.now time }
        ensures { IsFirstAction self.now time owed.now result }
    {
        if !scan::some_owes(&self.registered, &self.withdrawn, owed) {
            return self.idle_action(time);
        }
        if self.starts_epoch(time) {
            return self.order_action(owed);
        }
        Action::Run(self.next_stop(time) - time)
    }

    /// What is done where an order is due: a coflow that owes nothing leaves, and then the order is published.
    fn order_action(&self, owed: &[u64]) -> Action
        requires { length owed.now ≡ length self.now.arrivals }
        ensures { IsOrderAction self.now owed.now result }
    {
        match scan::first_served(&self.registered, &self.withdrawn, owed) {
            Some(coflow) => Action::Withdraw(coflow),
            None if self.published < MAX_PUBLISHINGS => Action::Publish,
            None => Action::TooMany(MAX_PUBLISHINGS as u64 + 1),
        }
    }

    /// What is done where nobody owes anything and everybody who arrived has joined: the run waits for the next
    /// arrival, or ends.
    fn idle_action(&self, time: u64) -> Action
        requires joined { HaveJoined self.now time }
        ensures { IsIdleAction self.now time result }
    {
        if self.upcoming.is_none() {
            return Action::End;
        }
        match scan::next_arrival(&self.arrivals, time) {
            Some(at) => Action::Skip(at + 1),
            None => Action::End,
        }
    }

    /// Whether an epoch starts at this time whose order was not published yet.
    fn starts_epoch(&self, time: u64) -> bool
        ensures { IsTrue result ↔ IsEpochStart self.now time }
    {
        match self.last {
            Some(last) if last == time => false,
            _ => time % self.every == 0,
        }
    }

    /// The first time after this one at which an epoch starts or a coflow arrives.
    fn next_stop(&self, time: u64) -> u64
        requires { time ≤ MAX_SLOT + 1 }
        ensures { IsNextStop self.now time result }
    {
        let start = time - time % self.every + self.every;
        match scan::next_arrival(&self.arrivals, time) {
            Some(at) => start.min(at),
            None => start,
        }
    }
}
