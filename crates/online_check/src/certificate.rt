//! What an online run says of its released certificate.
ghost use Rattle.std.specs.Prelude.{◌≡◌, ℕ, ◌≤◌, ◌+◌, All, MatchOption, length, map, slice_index};
ghost use Rattle.coflow_units.specs.declared.limits.TheConstants.{MAX_ARRIVAL, MAX_WEIGHT};
ghost use Rattle.flow_table.specs.Table.{IsTable, TableFacts, instance_of};
ghost use Rattle.cert_check.specs.Sound.{AreLoadsOf};
ghost use Rattle.online_text.specs.declared.value.Online.{Online};
ghost use Rattle.online_check.specs.Parts.{ArePlaced, HasSoundTotal, IsFirstFrom};
ghost use Rattle.online_check.specs.Reasons.{certificate_kind};
ghost use Rattle.online_check.specs.Released.{released_for};

use crate::verdict::OnlineReason;
use flow_table::Table;
use online_text::Online;
use port_load::Loads;
use release_bound::{ReleasePlace, released_infeasible, released_total};

/// The first reason of the certificate, where these are its places. It takes no memory.
pub(crate) fn wrong_certificate(
    table: &Table,
    loads: &Loads,
    weights: &[u64],
    arrivals: &[u64],
    places: &[ReleasePlace],
    online: &Online,
) -> Option<OnlineReason>
    requires table { IsTable table.now }
    requires loads { AreLoadsOf table.now loads.now }
    requires weight_each { length weights.now ≡ length table.now.ids }
    requires weight_range { All (λ w. w ≤ MAX_WEIGHT) weights.now }
    requires arrival_each { length arrivals.now ≡ length table.now.ids }
    requires arrival_range { All (λ a. a ≤ MAX_ARRIVAL + 1) arrivals.now }
    requires places { places.now ≡ map (released_for table.now.ids) online.now.release }
    requires placed { ArePlaced (instance_of table.now weights.now) table.now.ids online.now }
    ensures { MatchOption result
        (HasSoundTotal (instance_of table.now weights.now) (slice_index arrivals.now) table.now.ids online.now)
        (IsFirstFrom (instance_of table.now weights.now) (slice_index arrivals.now) table.now.ids online.now
        certificate_kind) }
{
    if let Some(coflow) = released_infeasible(loads, weights, places) {
        return Some(OnlineReason::Infeasible { coflow });
    }
    let real = released_total(loads, arrivals, weights, places);
    let stated = online.total;
    if stated > real {
        return Some(OnlineReason::TotalTooHigh { stated, real });
    }
    None
}
