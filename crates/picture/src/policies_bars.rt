//! The bars of policies.
ghost use Rattle.std.specs.Prelude.{◌≡◌, ◌<◌, ◌≤◌, ◌*◌, ◌^◌, ◌++◌, OnOk, length};
ghost use Rattle.picture.specs.Policies.{IsPoliciesDrawable, IsPolicyDrawable};
ghost use Rattle.picture.specs.PoliciesSvg.{bar_y, bars_part, each_policy, label_place, least_line, look_of, name_label, octave_axis, octave_tick, octave_ticks, octaves, policies_bars, policy_bar, power_tick, ratio_label, ratio_width};

use crate::axes::push_frame;
use crate::log::log_of;
use crate::means::push_line;
use crate::number::{push_number, push_total, push_two_digits};
use crate::policies_value::{PoliciesPicture, Policy};
use crate::ticks::step_of;
use crate::title::hundredths;
use coflow_units::NoMemory;

/// The bars in their frame, with the names.
pub(crate) fn push_bars(text: &mut Vec<u8>, picture: &PoliciesPicture) -> Result<(), NoMemory>
    requires { IsPoliciesDrawable picture.now }
    ensures { OnOk result (text.new.items ≡ text.old.items ++ policies_bars picture.now) }
{
    push_frame(text, 80, 150)?;
    push_part(text, picture)?;
    push_names(text, picture.policies.as_slice())?;
    Ok(())
}

/// The bars with their axis and the line at 1, or what stands in their place where the bound is 0.
fn push_part(text: &mut Vec<u8>, picture: &PoliciesPicture) -> Result<(), NoMemory>
    requires { IsPoliciesDrawable picture.now }
    ensures { OnOk result (text.new.items ≡ text.old.items ++ bars_part picture.now) }
{
    if picture.bound == 0 {
        text.extend_from_slice(
            b"<text x='430' y='160' text-anchor='middle'>the bound says nothing</text>\n",
        )?;
        return Ok(());
    }
    push_each(text, picture)?;
    push_axis(text, picture)?;
    push_least_line(text)?;
    Ok(())
}

/// The line at 1.
fn push_least_line(text: &mut Vec<u8>) -> Result<(), NoMemory>
    ensures { OnOk result (text.new.items ≡ text.old.items ++ least_line) }
{
    text.extend_from_slice(b"<text x='70' y='70'>no schedule is left of here</text>\n")?;
    push_line(text, b" stroke-width='3'", 70, 74, 230)?;
    Ok(())
}

/// The bars.
fn push_each(text: &mut Vec<u8>, picture: &PoliciesPicture) -> Result<(), NoMemory>
    requires drawable { IsPoliciesDrawable picture.now }
    requires bound { 1 ≤ picture.now.bound }
    ensures { OnOk result (text.new.items ≡ text.old.items ++
        each_policy (policy_bar picture.now) 0 picture.now.policies) }
{
    let policies = picture.policies.as_slice();
    for place in 0..policies.len() {
        push_bar(text, picture, place as u64, &policies[place])?;
    }
    Ok(())
}

/// A bar with its number.
fn push_bar(
    text: &mut Vec<u8>,
    picture: &PoliciesPicture,
    place: u64,
    policy: &Policy,
) -> Result<(), NoMemory>
    requires drawable { IsPoliciesDrawable picture.now }
    requires bound { 1 ≤ picture.now.bound }
    requires place { place < 5 }
    requires policy { IsPolicyDrawable picture.now policy.now }
    ensures { OnOk result (text.new.items ≡ text.old.items ++ policy_bar picture.now place policy.now) }
{
    let width = ratio_width(picture, policy.cost);
    push_number(text, b"<rect x='70' y='", bar_y(place) + 7)?;
    push_number(text, b"' width='", width)?;
    text.extend_from_slice(b"' height='16' fill='#dddddd'")?;
    text.extend_from_slice(look_of(place))?;
    push_ratio(text, picture, place, policy)?;
    Ok(())
}

/// How many times the bound the policy costs, at the end of its bar.
fn push_ratio(
    text: &mut Vec<u8>,
    picture: &PoliciesPicture,
    place: u64,
    policy: &Policy,
) -> Result<(), NoMemory>
    requires drawable { IsPoliciesDrawable picture.now }
    requires bound { 1 ≤ picture.now.bound }
    requires place { place < 5 }
    requires policy { IsPolicyDrawable picture.now policy.now }
    ensures { OnOk result (text.new.items ≡ text.old.items ++ ratio_label picture.now place policy.now) }
{
    push_label_place(text, place, ratio_width(picture, policy.cost))?;
    push_two_digits(text, hundredths(policy.cost, picture.bound))?;
    text.extend_from_slice(b"</text>\n")?;
    Ok(())
}

/// Where the number of a bar of this width stands.
fn push_label_place(text: &mut Vec<u8>, place: u64, width: u64) -> Result<(), NoMemory>
    requires place { place < 5 }
    requires inside { width ≤ 720 }
    ensures { OnOk result (text.new.items ≡ text.old.items ++ label_place place width) }
{
    let y = bar_y(place) + 19;
    if width <= 360 {
        push_number(text, b"<text x='", 76 + width)?;
        push_number(text, b"' y='", y)?;
        text.extend_from_slice(b"'>")?;
        return Ok(());
    }
    push_number(text, b"<text x='", 64 + width)?;
    push_number(text, b"' y='", y)?;
    text.extend_from_slice(b"' text-anchor='end'>")?;
    Ok(())
}

/// How wide the bar of a cost is.
fn ratio_width(picture: &PoliciesPicture, cost: u128) -> u64
    requires drawable { IsPoliciesDrawable picture.now }
    requires bound { 1 ≤ picture.now.bound }
    requires above { picture.now.bound ≤ cost }
    requires most { cost ≤ picture.now.most }
    ensures width { result ≡ ratio_width picture.now cost }
    ensures inside { result ≤ 720 }
{
    (log_of(cost, picture.bound) * 720 / (1024 * octaves(picture))).min(720)
}

/// How many powers of 2 the axis has behind 1.
fn octaves(picture: &PoliciesPicture) -> u64
    requires drawable { IsPoliciesDrawable picture.now }
    requires bound { 1 ≤ picture.now.bound }
    ensures count { result ≡ octaves picture.now }
    ensures some { 1 ≤ result }
    ensures few { result ≤ 97 }
{
    log_of(picture.most, picture.bound).div_ceil(1024).max(1)
}

/// Where the row of a bar begins, from above.
fn bar_y(place: u64) -> u64
    requires { place < 5 }
    ensures y { result ≡ bar_y place }
    ensures most { result ≤ 200 }
{
    80 + 30 * place
}

/// The axis of the bars.
fn push_axis(text: &mut Vec<u8>, picture: &PoliciesPicture) -> Result<(), NoMemory>
    requires drawable { IsPoliciesDrawable picture.now }
    requires bound { 1 ≤ picture.now.bound }
    ensures { OnOk result (text.new.items ≡ text.old.items ++ octave_axis picture.now) }
{
    push_ticks(text, octaves(picture))?;
    text.extend_from_slice(b"<text x='430' y='266' text-anchor='middle'>cost over bound</text>\n")?;
    Ok(())
}

/// The marks and the numbers of powers of 2.
fn push_ticks(text: &mut Vec<u8>, powers: u64) -> Result<(), NoMemory>
    requires some { 1 ≤ powers }
    requires few { powers ≤ 97 }
    ensures { OnOk result (text.new.items ≡ text.old.items ++ octave_ticks powers) }
{
    let step = step_of(powers);
    for turn in 0..powers / step + 1 {
        push_tick(text, powers, turn * step)?;
    }
    Ok(())
}

/// The mark and the number of a power of 2.
fn push_tick(text: &mut Vec<u8>, powers: u64, power: u64) -> Result<(), NoMemory>
    requires some { 1 ≤ powers }
    requires few { power ≤ 97 }
    ensures { OnOk result (text.new.items ≡ text.old.items ++ octave_tick powers power) }
{
    push_power_tick(text, 70 + power * 720 / powers, 230, power_of_two(power))?;
    Ok(())
}

/// A power of 2.
fn power_of_two(power: u64) -> u128
    requires { power ≤ 97 }
    ensures { result ≡ 2 ^ power }
{
    1 << power
}

/// The mark and the number of a place at an axis.
pub(crate) fn push_power_tick(
    text: &mut Vec<u8>,
    x: u64,
    end: u64,
    number: u128,
) -> Result<(), NoMemory>
    requires { end ≤ 760 }
    ensures { OnOk result (text.new.items ≡ text.old.items ++ power_tick x end number) }
{
    push_number(text, b"<rect x='", x)?;
    push_number(text, b"' y='", end)?;
    push_number(text, b"' width='1' height='5'/><text x='", x)?;
    push_number(text, b"' y='", end + 18)?;
    push_total(text, b"' text-anchor='middle'>", number)?;
    text.extend_from_slice(b"</text>\n")?;
    Ok(())
}

/// The names beside the rows of the bars.
fn push_names(text: &mut Vec<u8>, policies: &[Policy]) -> Result<(), NoMemory>
    requires { length policies.now ≤ 5 }
    ensures { OnOk result (text.new.items ≡ text.old.items ++ each_policy name_label 0 policies.now) }
{
    for place in 0..policies.len() {
        push_name(text, place as u64, &policies[place])?;
    }
    Ok(())
}

/// The name beside the row of a bar.
fn push_name(text: &mut Vec<u8>, place: u64, policy: &Policy) -> Result<(), NoMemory>
    requires { place < 5 }
    ensures { OnOk result (text.new.items ≡ text.old.items ++ name_label place policy.now) }
{
    push_number(text, b"<text x='62' y='", bar_y(place) + 19)?;
    text.extend_from_slice(b"' text-anchor='end'>")?;
    text.extend_from_slice(policy.name.as_slice())?;
    text.extend_from_slice(b"</text>\n")?;
    Ok(())
}

/// How the line of a policy is drawn.
pub(crate) fn look_of(place: u64) -> &'static [u8]
    ensures { result.now ≡ look_of place }
{
    match place {
        0 => b" stroke-width='2' stroke='#000000'/>\n",
        1 => b" stroke-width='2' stroke='#0072b2' stroke-dasharray='9 3'/>\n",
        2 => b" stroke-width='2' stroke='#d55e00' stroke-dasharray='3 3'/>\n",
        3 => b" stroke-width='2' stroke='#009e73' stroke-dasharray='9 3 2 3'/>\n",
        _ => b" stroke-width='2' stroke='#cc79a7' stroke-dasharray='1 2'/>\n",
    }
}
