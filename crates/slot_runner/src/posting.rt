//! The posts of a run.
ghost use Rattle.std.specs.Prelude.{◌≡◌, ℕ, ◌+◌, ◌<◌, ◌≤◌, false, All, Some};
ghost use Rattle.coflow_units.specs.declared.limits.TheConstants.{MAX_FLOWS, MAX_SLOT};
ghost use Rattle.port_board.specs.declared.view.Grant.{Grant};
ghost use Rattle.port_board.specs.Views.{is_unsettled};
ghost use Rattle.client_session.specs.Grants.{all_granted, flow_granted};
ghost use Rattle.client_session.specs.Models.{IsDriverOf};
ghost use Rattle.slot_runner.specs.Posts.{IsPosted};

use client_session::{Driver, Hall};
use port_board::{PortBoard, Poster};

/// Posts each granted flow at its ingress port.
pub fn post_grants(
    hall: &Hall,
    driver: &Driver,
    board: &PortBoard,
    poster: &mut Poster,
    slot: u64,
    length: u64,
)
    requires own { IsDriverOf hall.now driver.now × (poster.old.at ≡ board.now.id) }
    requires ports { board.now.ports ≡ hall.now.setting.opening.table.ports }
    requires flows { (port f : ℕ) →
        flow_granted hall.now.setting.opening driver.now.journal port ≡ Some f → f < MAX_FLOWS }
    requires slot { (1 ≤ slot) × (slot ≤ MAX_SLOT) × All (λ (g : Grant). g.slot < slot) poster.old.view.posts }
    requires length { (1 ≤ length) × (length ≤ MAX_SLOT + 1) }
    requires settled { (port : ℕ) → is_unsettled port poster.old.view.posts poster.old.view.settled ≡ false }
    ensures own { poster.new.at ≡ poster.old.at }
    ensures posted { IsPosted hall.now.setting.opening.table.flows
        (all_granted hall.now.setting.opening driver.now.journal) slot length poster.old.view poster.new.view }
{
    let _within = hall.coflows();
    let _seen = driver.made();
    for (flow, port) in driver.granted_flows().iter().zip(driver.granted_ports()) {
        board.post(poster, *port, slot, *flow, length);
    }
}
