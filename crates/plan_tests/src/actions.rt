//! What an online run does next, in runs that were worked out by hand.
ghost use Rattle.std.specs.Prelude.{◌≡◌, ◌≤◌, ◌^◌, length};
ghost use Rattle.coflow_units.specs.declared.limits.TheConstants.{MAX_OPTION_SLOTS};

use coflow_units::MAX_SLOT;
use epochs::{Action, Epochs};
use std::alloc::Global;
use std::process::Abort;

/// A run over two coflows that arrive at time 0 and at the time `second`.
fn two_coflows(rt: &impl Abort, alloc: Global, second: u64, every: u64) -> Epochs
    requires second_fits { second ≤ 2 ^ 32 }
    requires epoch_some { 1 ≤ every }
    requires epoch_fits { every ≤ MAX_OPTION_SLOTS }
    ensures { length result.arrivals ≡ 2 }
{
    let Ok(arrivals) = Vec::from_array(alloc, [0, second]) else {
        panic!(rt; "no memory");
    };
    let Ok(epochs) = Epochs::new(alloc, arrivals, every) else {
        panic!(rt; "no memory");
    };
    epochs
}

/// A time, the units that the coflows owe then, and what is done.
type Row = (u64, [u64; 2], Action);

/// What is done at the time of a row.
fn done(rt: &impl Abort, epochs: &mut Epochs, row: &Row) -> Action
    requires coflows { length epochs.old.arrivals ≡ 2 }
    ensures { length epochs.new.arrivals ≡ 2 }
{
    let (time, owed, _) = *row;
    assert!(rt; time < MAX_SLOT);
    epochs.next(time, &owed)
}

/// Stops where another thing is done at the time of a row.
fn is_done(rt: &impl Abort, have: Action, row: &Row) {
    let (time, _, want) = *row;
    if have != want {
        panic!(rt; "{have:?} is done at {time}");
    }
}

/// The rows in order, in a run over two coflows that arrive at time 0 and at the time `second`.
fn follow(rt: &impl Abort, alloc: Global, second: u64, every: u64, rows: &[Row])
    requires second_fits { second ≤ 2 ^ 32 }
    requires epoch_some { 1 ≤ every }
    requires epoch_fits { every ≤ MAX_OPTION_SLOTS }
{
    let mut epochs = two_coflows(rt, alloc, second, every);
    for row in rows {
        let have = done(rt, &mut epochs, row);
        is_done(rt, have, row);
    }
    drop(epochs);
}

/// The first coflow has 6 units, the second 1 unit, at the same ports. The second arrives at time 2, and goes first
/// from the epoch at 4 on.
#[test]
fn late_coflow_is_ordered_at_the_next_epoch(rt: HostRuntime) {
    const ROWS: &[Row] = &[
        (0, [6, 1], Action::Register(0)),
        (0, [6, 1], Action::Publish),
        (0, [6, 1], Action::Run(2)),
        (2, [4, 1], Action::Register(1)),
        (2, [4, 1], Action::Run(2)),
        (4, [2, 1], Action::Publish),
        (4, [2, 1], Action::Run(4)),
        (5, [2, 0], Action::Run(3)),
        (7, [0, 0], Action::End),
    ];
    follow(&rt, rt.alloc(), 2, 4, ROWS);
}

/// The first coflow is served at time 1, and leaves before the epoch at 2 is published. At time 4 nobody owes anything,
/// so nobody leaves.
#[test]
fn served_coflow_leaves_before_a_publishing(rt: HostRuntime) {
    const ROWS: &[Row] = &[
        (0, [1, 3], Action::Register(0)),
        (0, [1, 3], Action::Register(1)),
        (0, [1, 3], Action::Publish),
        (1, [0, 3], Action::Run(1)),
        (2, [0, 2], Action::Withdraw(0)),
        (2, [0, 2], Action::Publish),
        (2, [0, 2], Action::Run(2)),
        (4, [0, 0], Action::End),
    ];
    follow(&rt, rt.alloc(), 0, 2, ROWS);
}

/// The first coflow is served at time 1, and the second arrives at time 9: the next slot is 10.
#[test]
fn idle_time_is_skipped(rt: HostRuntime) {
    const ROWS: &[Row] = &[
        (0, [1, 2], Action::Register(0)),
        (0, [1, 2], Action::Publish),
        (0, [1, 2], Action::Run(4)),
        (1, [0, 2], Action::Skip(10)),
        (9, [0, 2], Action::Register(1)),
        (9, [0, 2], Action::Run(3)),
        (11, [0, 0], Action::End),
    ];
    follow(&rt, rt.alloc(), 9, 4, ROWS);
}
