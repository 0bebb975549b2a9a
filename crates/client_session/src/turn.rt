//! How a turn of the caller 0 ends.
ghost use Rattle.std.specs.Prelude.{◌≡◌, true, false, length, Some};
ghost use Rattle.journal.specs.declared.command.Entry.{Entry};
ghost use Rattle.turnstile.specs.Histories.{AddsAtMostOne};
ghost use Rattle.client_session.specs.Grants.{TellsGrants};
ghost use Rattle.client_session.specs.Desk.{IsSeen};

use crate::desk::Desk;
use crate::granted::Granted;
use turnstile::{Root, Turn, Turnstile};

/// Ends a turn of the caller 0, and keeps what is granted in the open run. The answer is the length of the journal,
/// which is one that callers may see.
pub fn end_turn(
    gate: &Turnstile<Desk>,
    root: &mut Root<Desk>,
    granted: &mut Granted,
    turn: Turn<Desk>,
) -> u32
    requires own { (root.old.table ≡ gate.now.table) × (root.old.in_turn ≡ true) }
    requires setting { root.old.setting ≡ Some turn.value.setting }
    requires list { AddsAtMostOne (λ (e : Entry). e.who) turn.value.journal 0 root.old.seen }
    requires ports { granted.old.ports ≡ turn.value.setting.opening.table.ports }
    ensures root { root.new ≡ record root.old { in_turn = false; seen = turn.value.journal } }
    ensures position { result ≡ length turn.value.journal }
    ensures seen { IsSeen turn.value.setting.opening turn.value.journal }
    ensures granted { TellsGrants turn.value.setting.opening turn.value.journal granted.new }
{
    let position = turn.value.position();
    turn.value.tell_grants(granted);
    gate.leave_root(root, turn);
    position
}
