//! The text of the numbers of a schedule.
ghost use Rattle.std.specs.Prelude.{◌≡◌, ◌≤◌, ◌^◌, ◌++◌, IfOk, IfSome, OnOk, OnSome};
ghost use Rattle.coflow_units.specs.declared.limits.TheConstants.{MAX_SLOT_MS};
ghost use Rattle.coflow_units.specs.Text.{ended, text_of};
ghost use Rattle.coflow_stats.specs.Stats.{IsSmall, IsWritable};
ghost use Rattle.coflow_stats.specs.Text.{cost_lines, figures, ms_lines, net_lines, ratio_words, stats_text, summary_line, summary_lines};

use crate::digits::push_thousandths;
use crate::groups::word_of;
use crate::ratio::push_ratio;
use crate::value::{Group, Stats, Summary};
use coflow_units::NoMemory;
use report_text::{push_named, push_number};
use std::alloc::Global;

/// The text of the numbers of a schedule, and in milliseconds too where those of a slot are given, at most 2^20.
///
/// Words are separated by one space, and each line ends with one line feed. The lines are `sincronia stats 1`, `coflows
/// N`, `bound B`, `cost C` and `ratio R`; of an online run `arrivals A`, `net-bound D`, `net-cost E` and `net-ratio R`,
/// which are less what arrivals cost; `makespan M`; `slots NAME N mean X median V p95 V p99 V` of all coflows and of
/// each group, or `slots NAME 0` where it has none; the same with `ms` in place of `slots`; and `end`. A ratio has four
/// digits behind the point and is rounded up, and is `-` where the bound is 0. A mean has three, and is rounded down.
///
/// The error is want of memory.
pub fn write_stats(alloc: Global, stats: &Stats, slot_ms: Option<u64>) -> Result<Vec<u8>, NoMemory>
    requires writable { IsWritable stats.now }
    requires slot_ms { IfSome slot_ms (λ ms. ms ≤ MAX_SLOT_MS) }
    ensures text { IfOk result (λ bytes. bytes.items ≡ stats_text stats.now slot_ms) }
{
    let mut text = Vec::new(alloc);
    text.extend_from_slice(b"sincronia stats 1\n")?;
    push_costs(&mut text, stats)?;
    push_net(&mut text, stats.bound, stats.cost, stats.arrivals)?;
    push_named(&mut text, b"makespan", u128::from(stats.makespan))?;
    push_summaries(&mut text, b"slots", 1, stats)?;
    push_ms(&mut text, stats, slot_ms)?;
    text.extend_from_slice(b"end\n")?;
    Ok(text)
}

/// The lines of coflows, bound, cost and ratio.
fn push_costs(text: &mut Vec<u8>, stats: &Stats) -> Result<(), NoMemory>
    requires { IsWritable stats.now }
    ensures { OnOk result (text.new.items ≡ text.old.items ++ text_of (cost_lines stats.now)) }
{
    push_named(text, b"coflows", u128::from(stats.all.count))?;
    push_named(text, b"bound", stats.bound)?;
    push_named(text, b"cost", stats.cost)?;
    push_ratio_line(text, b"ratio", stats.cost, stats.bound)?;
    Ok(())
}

/// The lines of bound, cost and ratio without what arrivals cost, of an online run.
fn push_net(
    text: &mut Vec<u8>,
    bound: u128,
    cost: u128,
    arrivals: Option<u128>,
) -> Result<(), NoMemory>
    requires { cost ≤ 2 ^ 100 }
    ensures { OnOk result (text.new.items ≡ text.old.items ++ text_of (net_lines bound cost arrivals)) }
{
    let Some(arrivals) = arrivals else {
        return Ok(());
    };
    push_less(text, bound, cost, arrivals)
}

/// The same lines, less what arrivals cost.
fn push_less(text: &mut Vec<u8>, bound: u128, cost: u128, arrivals: u128) -> Result<(), NoMemory>
    requires { cost ≤ 2 ^ 100 }
    ensures { OnOk result (text.new.items ≡ text.old.items ++ text_of (net_lines bound cost (Some arrivals))) }
{
    let net_bound = bound.saturating_sub(arrivals);
    let net_cost = cost.saturating_sub(arrivals);
    push_named(text, b"arrivals", arrivals)?;
    push_named(text, b"net-bound", net_bound)?;
    push_named(text, b"net-cost", net_cost)?;
    push_ratio_line(text, b"net-ratio", net_cost, net_bound)?;
    Ok(())
}

/// The line of a name and of cost by bound.
fn push_ratio_line(text: &mut Vec<u8>, name: &[u8], cost: u128, bound: u128) -> Result<(), NoMemory>
    requires { cost ≤ 2 ^ 100 }
    ensures { OnOk result (text.new.items ≡ text.old.items ++ ended (name.now ++ ratio_words cost bound)) }
{
    text.extend_from_slice(name)?;
    push_ratio(text, cost, bound)?;
    text.extend_from_slice(b"\n")?;
    Ok(())
}

/// The lines of all coflows and of each group in milliseconds, where those of a slot are given.
fn push_ms(text: &mut Vec<u8>, stats: &Stats, slot_ms: Option<u64>) -> Result<(), NoMemory>
    requires writable { IsWritable stats.now }
    requires slot_ms { IfSome slot_ms (λ ms. ms ≤ MAX_SLOT_MS) }
    ensures { OnOk result (text.new.items ≡ text.old.items ++ text_of (ms_lines stats.now slot_ms)) }
{
    let Some(ms) = slot_ms else {
        return Ok(());
    };
    push_summaries(text, b"ms", ms, stats)
}

/// The lines of all coflows and of each group, with each number taken so many times.
fn push_summaries(
    text: &mut Vec<u8>,
    measure: &[u8],
    times: u64,
    stats: &Stats,
) -> Result<(), NoMemory>
    requires writable { IsWritable stats.now }
    requires times { times ≤ MAX_SLOT_MS }
    ensures { OnOk result (text.new.items ≡ text.old.items ++ text_of (summary_lines measure.now times stats.now)) }
{
    push_summary(text, measure, b"all", times, &stats.all)?;
    push_summary(
        text,
        measure,
        word_of(Group::ShortNarrow),
        times,
        &stats.short_narrow,
    )?;
    push_summary(
        text,
        measure,
        word_of(Group::LongNarrow),
        times,
        &stats.long_narrow,
    )?;
    push_summary(
        text,
        measure,
        word_of(Group::ShortWide),
        times,
        &stats.short_wide,
    )?;
    push_summary(
        text,
        measure,
        word_of(Group::LongWide),
        times,
        &stats.long_wide,
    )?;
    Ok(())
}

/// The line of a summary.
fn push_summary(
    text: &mut Vec<u8>,
    measure: &[u8],
    name: &[u8],
    times: u64,
    summary: &Summary,
) -> Result<(), NoMemory>
    requires small { IsSmall summary.now }
    requires times { times ≤ MAX_SLOT_MS }
    ensures { OnOk result (text.new.items ≡
        text.old.items ++ ended (summary_line measure.now name.now times summary.now)) }
{
    text.extend_from_slice(measure)?;
    text.extend_from_slice(b" ")?;
    text.extend_from_slice(name)?;
    push_number(text, u128::from(summary.count))?;
    push_figures(text, times, summary)?;
    text.extend_from_slice(b"\n")?;
    Ok(())
}

/// The mean and the ranks of a summary, where it has any.
fn push_figures(text: &mut Vec<u8>, times: u64, summary: &Summary) -> Result<(), NoMemory>
    requires small { IsSmall summary.now }
    requires times { times ≤ MAX_SLOT_MS }
    ensures { OnOk result (text.new.items ≡
        text.old.items ++ figures times summary.now.total summary.now.count summary.now.ranks) }
{
    let Some(ranks) = summary.ranks else {
        return Ok(());
    };
    let times = u128::from(times);
    text.extend_from_slice(b" mean ")?;
    push_thousandths(
        text,
        1000 * summary.total * times / u128::from(summary.count),
    )?;
    text.extend_from_slice(b" median")?;
    push_number(text, u128::from(ranks.median) * times)?;
    text.extend_from_slice(b" p95")?;
    push_number(text, u128::from(ranks.p95) * times)?;
    text.extend_from_slice(b" p99")?;
    push_number(text, u128::from(ranks.p99) * times)?;
    Ok(())
}
