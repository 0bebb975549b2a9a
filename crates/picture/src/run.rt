//! What the picture of an online run shows.
ghost use Rattle.std.specs.Prelude.{◌≡◌, ◌≤◌, ◌^◌, IfOk, filter, length};
ghost use Rattle.coflow_units.specs.declared.limits.TheConstants.{MAX_COFLOWS};
ghost use Rattle.picture.specs.Layout.{IsSpan};
ghost use Rattle.picture.specs.Run.{IsRunDrawable, IsRunOf, is_edge};

use crate::curve::curve_of;
use crate::run_value::{RunCosts, RunPicture};
use crate::value::Span;
use coflow_units::{Items, NoMemory};
use std::alloc::Global;

/// The picture of an online run in a span of slots. Its coflows arrive at these times and are completed at the ends of
/// these slots, and its orders are published at these times. A time is how many slots have ended by then.
///
/// The error is want of memory.
pub fn run_picture_of(
    alloc: Global,
    span: Span,
    arrivals: &[u64],
    ends: &[u64],
    published: &[u64],
    costs: RunCosts,
) -> Result<RunPicture, NoMemory>
    requires span { IsSpan span }
    requires few { length arrivals.now ≤ MAX_COFLOWS }
    requires same { length ends.now ≡ length arrivals.now }
    requires small { costs.cost ≤ 2 ^ 120 }
    ensures shows { IfOk result (IsRunOf arrivals.now ends.now published.now) }
    ensures span { IfOk result (λ p. p.span ≡ span) }
    ensures costs { IfOk result (λ p. p.costs ≡ costs) }
    ensures drawable { IfOk result IsRunDrawable }
{
    let arrived = curve_of(alloc, arrivals)?;
    let done = curve_of(alloc, ends)?;
    let ticks = ticks_in(alloc, span, published)?;
    Ok(RunPicture {
        span,
        coflows: arrivals.len() as u64,
        arrivals: Items::from_vec(arrived),
        done: Items::from_vec(done),
        ticks,
        costs,
    })
}

/// Those of the times that are edges of slots of the span.
fn ticks_in(alloc: Global, span: Span, times: &[u64]) -> Result<Items<u64>, NoMemory>
    requires { IsSpan span }
    ensures { IfOk result (λ ticks. ticks ≡ filter (is_edge span) times.now) }
{
    let mut ticks = Vec::new(alloc);
    for time in times {
        if is_edge(span, *time) {
            ticks.push(*time)?;
        }
    }
    Ok(Items::from_vec(ticks))
}

/// Whether a slot of the span ends at this time, or the first one begins.
fn is_edge(span: Span, time: u64) -> bool
    requires { IsSpan span }
    ensures { result ≡ is_edge span time }
{
    span.first - 1 <= time && time <= span.last
}
