//! The runs that a journal closed, taken down entry by entry.
ghost use Rattle.std.specs.Prelude.{◌≡◌, ℕ, ◌<◌, All, IfOk, List, [], ◌∷◌, ◌++◌, length, map, None, OnErr, OnOk, option_to_list, Some};
ghost use Rattle.coflow_units.specs.declared.fabric.Flow.{Flow};
ghost use Rattle.journal.specs.declared.command.Entry.{Entry};
ghost use Rattle.journal.specs.declared.opening.Opening.{Opening};
ghost use Rattle.journal.specs.Fold.{port_named, state_of};
ghost use Rattle.journal.specs.Runs.{flows_granted};
ghost use Rattle.journal.specs.Tally.{credit_at, IsTally, noted_credit, with_note};

use crate::command::{Command, Entry, Reply};
use coflow_units::{Flow, Items, NoMemory};
use std::alloc::Global;
use std::marker::Model;

/// A flow that a run grants, its ingress port, and the units that the run credits to it.
#[derive(Clone, Copy, Debug, PartialEq, Eq)]
pub struct Credit {
    pub flow: u32,
    pub ingress: u32,
    pub units: u64,
}

/// A run as it stands when it is closed: its first slot, how many slots it has, and its granted flows by number, each
/// with the units that are credited to it. In the schedule a flow stands in so many of the run's slots, from the first
/// one on; its wire was sent them from the first slot on.
#[derive(Drop)]
pub struct CreditedRun {
    pub first: u64,
    pub slots: u64,
    pub credits: Items<Credit>,
}

/// The closed runs of a journal and the open one, taken down entry by entry. The replies tell all but the granted
/// flows, which the master tells while the run is open.
///
/// Contracts see a `RunTally` as its closed runs, in order, and the open run with what is credited to its flows so far.
#[derive(Drop)]
pub struct RunTally {
    closed: Vec<CreditedRun>,
    current: Option<CreditedRun>,
}

impl Model for RunTally {
    ghost use Rattle.journal.specs.Tally.{TalliedRuns};

    ghost Value = { TalliedRuns };

    ghost view = { λ s. record { closed = s.closed.items; current = s.current } };
}

impl RunTally {
    /// The tally of a journal without entries.
    pub fn new(alloc: Global) -> RunTally
        ensures { (o : Opening) → IsTally o [] result }
    {
        RunTally {
            closed: Vec::new(alloc),
            current: None,
        }
    }

    /// Takes down the next entry of a journal over these flows. `granted` are the flows that the open run grants after
    /// the entry, by number, and none where no run is open: what `Master::granted_flows` tells. They are looked at only
    /// where the entry opens a run. A note costs a look at each granted flow, any other entry no more than it adds. The
    /// error is want of memory, and leaves the tally as it was.
    pub fn take(
        &mut self,
        alloc: Global,
        entry: Entry,
        flows: &[Flow],
        granted: &[u32],
    ) -> Result<(), NoMemory>
        requires { All (λ f. f < length flows.now) granted.now }
        ensures tally { OnOk result ((o : Opening) (journal : List Entry) → o.table.flows ≡ flows.now →
            flows_granted (state_of o (journal ++ entry ∷ [])).run ≡ granted.now →
            IsTally o journal self.old → IsTally o (journal ++ entry ∷ []) self.new) }
        ensures unchanged { OnErr result (self.new ≡ self.old) }
    {
        match entry.reply {
            Reply::Opened(first, slots, _) => {
                let credits = full_credits(alloc, flows, granted, slots)?;
                self.begin(CreditedRun {
                    first,
                    slots,
                    credits,
                });
            }
            Reply::Noted(units) => self.note(port_named(entry.command), units),
            Reply::Closed(_) => self.close()?,
            _ => {}
        }
        Ok(())
    }

    /// The closed runs, in order.
    pub fn closed(&self) -> &[CreditedRun]
        ensures { result.now ≡ self.now.closed }
    {
        &self.closed
    }

    /// The run is open from now on.
    fn begin(&mut self, run: CreditedRun)
        ensures { self.new ≡ record { closed = self.old.closed; current = Some run } }
    {
        self.current = Some(run);
    }

    /// Credits so many units to the flows of the open run that begin at the port.
    fn note(&mut self, port: u32, units: u64)
        ensures { self.new ≡ record { closed = self.old.closed; current = with_note self.old.current port units } }
    {
        let Some(run) = self.current.take() else {
            return;
        };
        let CreditedRun {
            first,
            slots,
            credits,
        } = run;
        let mut credits = credits.into_vec();
        note_at(&mut credits, port, units);
        self.current = Some(CreditedRun {
            first,
            slots,
            credits: Items::from_vec(credits),
        });
    }

    /// Closes the open run, where there is one. The error is want of memory, and changes nothing.
    fn close(&mut self) -> Result<(), NoMemory>
        ensures ok { OnOk result
            (self.new ≡ record { closed = self.old.closed ++ option_to_list self.old.current; current = None }) }
        ensures err { OnErr result (self.new ≡ self.old) }
    {
        self.closed.reserve(1)?;
        if let Some(run) = self.current.take() {
            self.closed.push_reserved(run);
        }
        Ok(())
    }
}

/// The granted flows, each credited with a unit for each slot. The error is want of memory.
fn full_credits(
    alloc: Global,
    flows: &[Flow],
    granted: &[u32],
    slots: u64,
) -> Result<Items<Credit>, NoMemory>
    requires { All (λ f. f < length flows.now) granted.now }
    ensures { IfOk result (λ credits. credits ≡ map (λ f. credit_at flows.now f slots) granted.now) }
{
    let mut credits = Vec::with_capacity(alloc, granted.len())?;
    for flow in granted {
        credits.push(Credit {
            flow: *flow,
            ingress: flows[*flow as usize].ingress,
            units: slots,
        })?;
    }
    Ok(Items::from_vec(credits))
}

/// Credits so many units to the flows that begin at the port.
fn note_at(credits: &mut [Credit], port: u32, units: u64)
    ensures { credits.new ≡ map (noted_credit port units) credits.old }
{
    for credit in credits.iter_mut() {
        if credit.ingress == port {
            credit.units = units;
        }
    }
}

/// The port that a command names, or 0.
fn port_named(command: Command) -> u32
    ensures { result ≡ port_named command }
{
    match command {
        Command::Short(port, _) => port,
        _ => 0,
    }
}
