//! What tests begin with. A test that finds no memory stops at once.
ghost use Rattle.std.specs.Prelude.{◌≡◌, ◌≤◌};
ghost use Rattle.port_board.specs.Rule.{first_poster};

use port_board::{PortBoard, Poster};
use std::alloc::Global;
use std::process::Abort;

/// A board of so many ports, at most 64, and its poster.
pub(crate) fn board_of(rt: &impl Abort, alloc: Global, ports: u32) -> (PortBoard, Poster)
    requires ports { (1 ≤ ports) × (ports ≤ 64) }
    ensures ports { result.0.ports ≡ ports }
    ensures own { result.1.at ≡ result.0.id }
    ensures fresh { result.1.view ≡ first_poster }
{
    let Ok(made) = PortBoard::new(alloc, ports) else {
        panic!(rt; "no memory");
    };
    made
}
