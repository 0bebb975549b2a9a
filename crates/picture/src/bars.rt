//! The bars of a schedule.
ghost use Rattle.std.specs.Prelude.{◌<◌, ◌≤◌, All, IfErr, IfOk, length};
ghost use Rattle.coflow_units.specs.declared.fabric.Flow.{Flow};
ghost use Rattle.coflow_units.specs.declared.limits.TheConstants.{MAX_SLOT};
ghost use Rattle.coflow_units.specs.Flows.{end_at};
ghost use Rattle.coflow_units.specs.Schedule.{IsClear};
ghost use Rattle.schedule_model.specs.RunList.{slots_in};
ghost use Rattle.picture.specs.declared.value.TheConstants.{MAX_BARS};
ghost use Rattle.picture.specs.Bars.{IsBars, IsTooMany, bar_count};

use crate::canvas::Canvas;
use crate::row::PortBars;
use crate::value::{BarsFault, MAX_BARS, Window};
use coflow_units::Flow;
use run_list::Runs;
use std::alloc::Global;

/// The bars that a schedule has in a window: for each port of the window's side, from 0 up to `ports`, the longest
/// stretches of the window's slots in which the port serves one coflow, ascending. Slots count from 1. A window without
/// slots has no bars.
///
/// The schedule is given as runs, and it may be any in which no port serves two flows in one slot. It has at most
/// `MAX_SLOT` slots, and the flows' ports are below `ports`.
///
/// `TooMany` says how many bars there would be, where they are more than `MAX_BARS`. `NoMemory` is want of memory.
pub fn bars_of(
    alloc: Global,
    flows: &[Flow],
    ports: u32,
    runs: &Runs,
    window: Window,
) -> Result<Vec<PortBars>, BarsFault>
    requires ports { All (λ (x : Flow). end_at window.side x < ports) flows.now }
    requires clear { All (IsClear flows.now) (slots_in runs.now) }
    requires short { length (slots_in runs.now) ≤ MAX_SLOT }
    ensures bars { IfOk result (λ rows. IsBars flows.now (slots_in runs.now) ports window rows.items) }
    ensures few { IfOk result (λ rows. bar_count rows.items ≤ MAX_BARS) }
    ensures fault { IfErr result (IsTooMany flows.now (slots_in runs.now) ports window) }
{
    let mut canvas = Canvas::new(alloc, ports)?;
    let mut walk = runs.walk(alloc)?;
    let mut slots = 0;
    for place in 0..runs.count() {
        let first = window.first.max(slots + 1);
        slots += walk.enter();
        let last = window.last.min(slots);
        if first > last {
            continue;
        }
        let part = Window {
            side: window.side,
            first,
            last,
        };
        canvas.draw(flows, walk.flows(), part)?;
    }
    let Canvas { rows, count } = canvas;
    if count > MAX_BARS {
        return Err(BarsFault::TooMany { bars: count });
    }
    Ok(rows)
}
