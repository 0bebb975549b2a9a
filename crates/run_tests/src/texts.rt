//! The texts of closed journals.
ghost use Rattle.std.specs.Prelude.{◌≡◌, ◌∷◌, []};

use crate::masters::{are_worded, ask_all, had, master_of_two, weights_of_two};
use coflow_units::Items;
use journal::Command;
use live_runs::live_value;
use live_text::{PullLine, write_live};
use master_core::Master;
use std::alloc::Global;
use std::process::Abort;
use std::test::*;

/// Both coflows are ordered, the short one first, and served to their ends.
const SERVED: [(u32, Command); 8] = [
    (1, Command::Register(0)),
    (1, Command::Register(1)),
    (1, Command::Publish),
    (0, Command::Open(4)),
    (0, Command::Close),
    (0, Command::Open(4)),
    (0, Command::Close),
    (0, Command::Open(4)),
];

const SERVED_TEXT: &str = "sincronia live 1\n\
    entry 1 1 register 1 joined\n\
    entry 2 1 register 2 joined\n\
    entry 3 1 publish version 1\n\
    entry 4 0 open 4 opened 1 1 1\n\
    entry 5 0 close closed 1\n\
    entry 6 0 open 4 opened 2 3 1\n\
    entry 7 0 close closed 2\n\
    entry 8 0 open 4 nothing\n\
    order 1 2 1\n\
    pull 1 4 2 1 1\n\
    run 1 1\n\
    run 3 0\n\
    end\n";

/// Three versions, of which none has the order of another; refusals; and two runs of the same flow, one behind the
/// other.
const ORDERED_ANEW: [(u32, Command); 18] = [
    (1, Command::Publish),
    (1, Command::Register(0)),
    (1, Command::Publish),
    (0, Command::Open(1)),
    (2, Command::Publish),
    (0, Command::Close),
    (0, Command::Open(1)),
    (0, Command::Close),
    (2, Command::Register(1)),
    (2, Command::Pull(1)),
    (2, Command::Publish),
    (2, Command::Pull(0)),
    (
        2,
        Command::Reweigh {
            coflow: 1,
            weight: 7,
        },
    ),
    (1, Command::Withdraw(0)),
    (1, Command::Withdraw(0)),
    (1, Command::Register(0)),
    (0, Command::Open(9)),
    (0, Command::Close),
];

const ORDERED_ANEW_TEXT: &str = "sincronia live 1\n\
    entry 1 1 publish version 1\n\
    entry 2 1 register 1 joined\n\
    entry 3 1 publish version 2\n\
    entry 4 0 open 1 opened 1 1 1\n\
    entry 5 2 publish stillopen 1\n\
    entry 6 0 close closed 1\n\
    entry 7 0 open 1 opened 2 1 1\n\
    entry 8 0 close closed 2\n\
    entry 9 2 register 2 joined\n\
    entry 10 2 pull 2 unranked 2\n\
    entry 11 2 publish version 3\n\
    entry 12 2 pull 1 rank 3 1\n\
    entry 13 2 reweigh 2 7 weighed 1\n\
    entry 14 1 withdraw 1 left\n\
    entry 15 1 withdraw 1 nothere\n\
    entry 16 1 register 1 already\n\
    entry 17 0 open 9 opened 3 1 1\n\
    entry 18 0 close closed 3\n\
    order 1\n\
    order 2 1\n\
    order 3 1 2\n\
    run 2 0\n\
    run 1 1\n\
    end\n";

/// The text of what is printed of the master and of these pulls.
fn text_of(rt: &impl Abort, alloc: Global, closed: &Master, pulls: &[PullLine]) -> Vec<u8>
    requires weights { closed.now.opening.weights ≡ 1 ∷ 1 ∷ [] }
    requires limit { closed.now.opening.limit ≡ 100 }
{
    assert!(rt; are_worded(closed));
    let pulls = Items::from_vec(had(rt, Vec::from_slice(alloc, pulls)));
    let weights = weights_of_two(rt, alloc);
    let live = had(rt, live_value(alloc, closed, weights, 100, pulls));
    let text = had(rt, write_live(alloc, live));
    had(rt, text.bytes(alloc))
}

/// Whether a master that is asked these commands has the text.
fn has_text(
    rt: &impl Abort,
    alloc: Global,
    asks: &[(u32, Command)],
    pulls: &[PullLine],
    text: &str,
) -> bool {
    let mut master = master_of_two(rt, alloc);
    ask_all(rt, &mut master, asks);
    text_of(rt, alloc, &master, pulls).as_slice() == text.as_bytes()
}

#[test]
fn work_that_is_served(rt: HostRuntime) -> Result<(), Fail> {
    let pulls = [PullLine {
        client: 1,
        line: 4,
        id: 2,
        version: 1,
        rank: 1,
    }];
    assert!(rt; has_text(&rt, rt.alloc(), &SERVED, &pulls, SERVED_TEXT));
    Ok(())
}

#[test]
fn orders_of_older_versions(rt: HostRuntime) -> Result<(), Fail> {
    assert!(rt; has_text(&rt, rt.alloc(), &ORDERED_ANEW, &[], ORDERED_ANEW_TEXT));
    Ok(())
}

#[test]
fn a_journal_without_entries(rt: HostRuntime) -> Result<(), Fail> {
    assert!(rt; has_text(&rt, rt.alloc(), &[], &[], "sincronia live 1\nend\n"));
    Ok(())
}
