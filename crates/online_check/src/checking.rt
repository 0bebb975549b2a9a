//! The check of an online run.
ghost use Rattle.std.specs.Prelude.{◌≡◌, ◌≤◌, ◌+◌, ◌↔◌, All, IfOk, length, slice_index};
ghost use Rattle.coflow_units.specs.declared.limits.TheConstants.{MAX_ARRIVAL, MAX_WEIGHT};
ghost use Rattle.flow_table.specs.Table.{instance_of};
ghost use Rattle.cert_check.specs.Sound.{AreLoadsOf};
ghost use Rattle.online_text.specs.Online.{IsOnline};
ghost use Rattle.online_check.specs.Reasons.{IsOnlineVerdict, NamesOneOfIfAny};
ghost use Rattle.online_check.specs.Sound.{IsSoundOnline};

use crate::certificate::wrong_certificate;
use crate::ends::wrong_ends;
use crate::places::{Placed, places_of};
use crate::schedule::wrong_schedule;
use crate::verdict::{OnlineReason, OnlineVerdict};
use coflow_units::NoMemory;
use flow_table::Table;
use online_text::Online;
use port_load::Loads;
use std::alloc::Global;

/// Whether the text of an online run is right for the coflows of a table, with one weight for each, by number, of at
/// most 2^32, and one arrival, a time in slots of at most 2^32. The loads are those of the table's flows. The online
/// run is one that a text can state: it has at most 2^41 - 1 slots, each run has one slot or more and ascending flows,
/// and neighbouring runs differ.
///
/// `Yes` comes exactly where all of this holds, which `IsSoundOnline` says:
///
/// - the release lines name each coflow once, by its id, and their ports are in range;
/// - no coflow pays more than its budget;
/// - the stated total is at most that of the released certificate;
/// - each flow is sent its units, no port is used twice in a slot, and no slot has a number that is no flow's;
/// - no slot at or before its arrival holds a flow of a coflow;
/// - the lines of completions are those of the coflows by number, and state their completions;
/// - the cost is the sum over the coflows of weight times completion.
///
/// Else the first reason comes, in the order of `OnlineReason`. The error is want of memory, which may come in place of
/// any answer.
///
/// Nothing that the text says is trusted. So a yes says that no schedule that serves nobody before its arrival costs
/// less than the stated total, whoever made the text. It says nothing of the orders that were published.
pub fn check_online(
    alloc: Global,
    table: &Table,
    loads: &Loads,
    weights: &[u64],
    arrivals: &[u64],
    online: &Online,
) -> Result<OnlineVerdict, NoMemory>
    requires loads { AreLoadsOf table.now loads.now }
    requires weight_each { length weights.now ≡ length table.now.ids }
    requires weight_range { All (λ w. w ≤ MAX_WEIGHT) weights.now }
    requires arrival_each { length arrivals.now ≡ length table.now.ids }
    requires arrival_range { All (λ a. a ≤ MAX_ARRIVAL + 1) arrivals.now }
    requires online { IsOnline online.now }
    ensures verdict { IfOk result (IsOnlineVerdict (instance_of table.now weights.now) (slice_index arrivals.now)
        table.now.ids online.now) }
    ensures yes { IfOk result (λ verdict. (verdict ≡ OnlineVerdict.Yes) ↔ IsSoundOnline
        (instance_of table.now weights.now) (slice_index arrivals.now) table.now.ids online.now) }
    ensures coflow { IfOk result (NamesOneOfIfAny (length table.now.ids)) }
{
    let places = match places_of(alloc, table, online)? {
        Placed::Places(places) => places,
        Placed::Wrong(reason) => return Ok(OnlineVerdict::No(reason)),
    };
    if let Some(reason) = wrong_certificate(table, loads, weights, arrivals, &places, online) {
        return Ok(OnlineVerdict::No(reason));
    }
    if let Some(reason) = wrong_schedule(alloc, table, arrivals, online)? {
        return Ok(OnlineVerdict::No(reason));
    }
    if let Some(reason) = wrong_ends(alloc, table, weights, online)? {
        return Ok(OnlineVerdict::No(reason));
    }
    Ok(OnlineVerdict::Yes)
}
