//! The legend of policies.
ghost use Rattle.std.specs.Prelude.{◌≡◌, ◌<◌, ◌≤◌, ◌++◌, OnOk, codes, decimal};
ghost use Rattle.coflow_stats.specs.Stats.{IsSmall};
ghost use Rattle.picture.specs.Policies.{IsPoliciesDrawable};
ghost use Rattle.picture.specs.Text.{one_digit};
ghost use Rattle.picture.specs.PoliciesSvg.{each_policy, entry_line, name_line, policies_legend, policy_entry, ranks_lines, times_lines};

use crate::means::tenths_up;
use crate::number::{push_number, push_one_digit};
use crate::policies_bars::look_of;
use crate::policies_value::{PoliciesPicture, Policy};
use coflow_stats::{Ranks, Summary};
use coflow_units::NoMemory;

/// The legend.
pub(crate) fn push_legend(text: &mut Vec<u8>, picture: &PoliciesPicture) -> Result<(), NoMemory>
    requires { IsPoliciesDrawable picture.now }
    ensures { OnOk result (text.new.items ≡ text.old.items ++ policies_legend picture.now) }
{
    text.extend_from_slice(b"<text x='850' y='70'>completion, in slots</text>\n")?;
    push_entries(text, picture)?;
    Ok(())
}

/// The entries of the policies.
fn push_entries(text: &mut Vec<u8>, picture: &PoliciesPicture) -> Result<(), NoMemory>
    requires { IsPoliciesDrawable picture.now }
    ensures { OnOk result (text.new.items ≡ text.old.items ++ each_policy policy_entry 0 picture.now.policies) }
{
    let policies = picture.policies.as_slice();
    for place in 0..policies.len() {
        push_entry(text, place as u64, &policies[place])?;
    }
    Ok(())
}

/// The entry of a policy: a piece of its line, its name, and its completions in slots.
fn push_entry(text: &mut Vec<u8>, place: u64, policy: &Policy) -> Result<(), NoMemory>
    requires place { place < 5 }
    requires small { IsSmall policy.now.times }
    requires some { 1 ≤ policy.now.times.count }
    ensures { OnOk result (text.new.items ≡ text.old.items ++ policy_entry place policy.now) }
{
    let y = 80 + 80 * place;
    push_number(text, b"<path d='M850 ", y + 6)?;
    text.extend_from_slice(b"h24' fill='none'")?;
    text.extend_from_slice(look_of(place))?;
    push_name(text, y + 10, policy.name.as_slice())?;
    push_times(text, y, policy.times)?;
    Ok(())
}

/// The line of a name.
fn push_name(text: &mut Vec<u8>, y: u64, name: &[u8]) -> Result<(), NoMemory>
    ensures { OnOk result (text.new.items ≡ text.old.items ++ name_line y name.now) }
{
    push_number(text, b"<text x='884' y='", y)?;
    text.extend_from_slice(b"'>")?;
    text.extend_from_slice(name)?;
    text.extend_from_slice(b"</text>\n")?;
    Ok(())
}

/// The mean completion, and the ranks.
fn push_times(text: &mut Vec<u8>, y: u64, times: Summary) -> Result<(), NoMemory>
    requires y { y ≤ 400 }
    requires small { IsSmall times }
    requires some { 1 ≤ times.count }
    ensures { OnOk result (text.new.items ≡ text.old.items ++ times_lines y times) }
{
    push_mean(text, y + 26, tenths_up(times.total, u64::from(times.count)))?;
    push_ranks(text, y, times.ranks)?;
    Ok(())
}

/// The line of a mean, which is told in tenths.
fn push_mean(text: &mut Vec<u8>, y: u64, tenths: u128) -> Result<(), NoMemory>
    ensures { OnOk result (text.new.items ≡ text.old.items ++
        entry_line y (codes "mean at most ") (one_digit tenths)) }
{
    push_number(text, b"<text x='884' y='", y)?;
    text.extend_from_slice(b"'>")?;
    text.extend_from_slice(b"mean at most ")?;
    push_one_digit(text, tenths)?;
    text.extend_from_slice(b"</text>\n")?;
    Ok(())
}

/// The median and the number at 95 per cent, where there are any.
fn push_ranks(text: &mut Vec<u8>, y: u64, ranks: Option<Ranks>) -> Result<(), NoMemory>
    requires { y ≤ 400 }
    ensures { OnOk result (text.new.items ≡ text.old.items ++ ranks_lines y ranks) }
{
    let Some(ranks) = ranks else {
        return Ok(());
    };
    push_slots(text, y + 42, b"median ", ranks.median)?;
    push_slots(text, y + 58, b"95 % by ", ranks.p95)?;
    Ok(())
}

/// The line of a number of slots.
fn push_slots(text: &mut Vec<u8>, y: u64, words: &[u8], slots: u64) -> Result<(), NoMemory>
    ensures { OnOk result (text.new.items ≡ text.old.items ++ entry_line y words.now (decimal slots)) }
{
    push_number(text, b"<text x='884' y='", y)?;
    text.extend_from_slice(b"'>")?;
    text.extend_from_slice(words)?;
    push_number(text, b"", slots)?;
    text.extend_from_slice(b"</text>\n")?;
    Ok(())
}
