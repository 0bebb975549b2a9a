//! The curves of policies.
ghost use Rattle.std.specs.Prelude.{◌≡◌, ◌<◌, ◌≤◌, ◌*◌, ◌^◌, ◌++◌, All, OnOk};
ghost use Rattle.std.specs.List.{flat_map};
ghost use Rattle.picture.specs.declared.value.Step.{Step};
ghost use Rattle.picture.specs.Policies.{IsPoliciesDrawable, IsPolicyDrawable};
ghost use Rattle.picture.specs.PoliciesSvg.{completed_y, decade_axis, decade_tick, decade_ticks, decades, each_policy, log_x, policies_curves, policy_curve, policy_step, slots_end};

use crate::axes::{push_frame, push_height_label};
use crate::log::log_of;
use crate::marks::digits_of;
use crate::number::push_number;
use crate::policies_bars::{look_of, push_power_tick};
use crate::policies_value::{PoliciesPicture, Policy};
use crate::ticks::step_of;
use crate::value::Step;
use coflow_units::NoMemory;

/// The curves in their frame, with the axes.
pub(crate) fn push_curves(text: &mut Vec<u8>, picture: &PoliciesPicture) -> Result<(), NoMemory>
    requires { IsPoliciesDrawable picture.now }
    ensures { OnOk result (text.new.items ≡ text.old.items ++ policies_curves picture.now) }
{
    text.extend_from_slice(b"<text x='70' y='300'>completed coflows</text>\n")?;
    push_each(text, picture)?;
    push_frame(text, 310, 240)?;
    push_axis(text, picture)?;
    push_height_label(text, 310, picture.coflows)?;
    push_height_label(text, 550, 0)?;
    Ok(())
}

/// The curves.
fn push_each(text: &mut Vec<u8>, picture: &PoliciesPicture) -> Result<(), NoMemory>
    requires { IsPoliciesDrawable picture.now }
    ensures { OnOk result (text.new.items ≡ text.old.items ++
        each_policy (policy_curve picture.now) 0 picture.now.policies) }
{
    let policies = picture.policies.as_slice();
    for place in 0..policies.len() {
        push_curve(text, picture, place as u64, &policies[place])?;
    }
    Ok(())
}

/// The curve of a policy.
fn push_curve(
    text: &mut Vec<u8>,
    picture: &PoliciesPicture,
    place: u64,
    policy: &Policy,
) -> Result<(), NoMemory>
    requires drawable { IsPoliciesDrawable picture.now }
    requires policy { IsPolicyDrawable picture.now policy.now }
    ensures { OnOk result (text.new.items ≡ text.old.items ++ policy_curve picture.now place policy.now) }
{
    text.extend_from_slice(b"<path d='M70 550")?;
    push_steps(text, picture, policy.steps.as_slice())?;
    text.extend_from_slice(b"H790' fill='none'")?;
    text.extend_from_slice(look_of(place))?;
    Ok(())
}

/// The steps of a curve.
fn push_steps(text: &mut Vec<u8>, picture: &PoliciesPicture, steps: &[Step]) -> Result<(), NoMemory>
    requires drawable { IsPoliciesDrawable picture.now }
    requires counted { All (λ (s : Step). 1 ≤ s.slot) steps.now }
    requires few { All (λ (s : Step). s.done ≤ picture.now.coflows) steps.now }
    ensures { OnOk result (text.new.items ≡ text.old.items ++ flat_map (policy_step picture.now) steps.now) }
{
    for step in steps {
        push_step(text, picture, *step)?;
    }
    Ok(())
}

/// A step of a curve: to the slot, and up to how many coflows are completed by its end.
fn push_step(text: &mut Vec<u8>, picture: &PoliciesPicture, step: Step) -> Result<(), NoMemory>
    requires drawable { IsPoliciesDrawable picture.now }
    requires counted { 1 ≤ step.slot }
    requires few { step.done ≤ picture.now.coflows }
    ensures { OnOk result (text.new.items ≡ text.old.items ++ policy_step picture.now step) }
{
    push_number(text, b"H", log_x(picture, step.slot))?;
    push_number(text, b"V", completed_y(picture, step.done))?;
    Ok(())
}

/// Where a slot lies, from left.
fn log_x(picture: &PoliciesPicture, slot: u64) -> u64
    requires drawable { IsPoliciesDrawable picture.now }
    requires counted { 1 ≤ slot }
    ensures { result ≡ log_x picture.now slot }
{
    70 + (log_of(u128::from(slot), 1) * 720 / slots_end(picture)).min(720)
}

/// Where the axis of slots ends, as a logarithm.
fn slots_end(picture: &PoliciesPicture) -> u64
    requires { IsPoliciesDrawable picture.now }
    ensures end { result ≡ slots_end picture.now }
    ensures some { 1 ≤ result }
{
    log_of(u128::from(power_of_ten(decades(picture))), 1)
}

/// Where so many coflows lie, from above.
fn completed_y(picture: &PoliciesPicture, count: u64) -> u64
    requires drawable { IsPoliciesDrawable picture.now }
    requires few { count ≤ picture.now.coflows }
    ensures { result ≡ completed_y picture.now count }
{
    550 - count * 240 / picture.coflows
}

/// How many powers of ten the axis of slots has behind 1.
fn decades(picture: &PoliciesPicture) -> u64
    requires { IsPoliciesDrawable picture.now }
    ensures count { result ≡ decades picture.now }
    ensures some { 1 ≤ result }
    ensures few { result ≤ 13 }
{
    digits_of(picture.last - 1)
}

/// A power of ten.
fn power_of_ten(power: u64) -> u64
    requires { power ≤ 13 }
    ensures number { result ≡ 10 ^ power }
    ensures least { 1 ≤ result }
    ensures ten { 1 ≤ power → 10 ≤ result }
{
    let mut number = 1;
    for _ in 0..power {
        number *= 10;
    }
    number
}

/// The axis of slots.
fn push_axis(text: &mut Vec<u8>, picture: &PoliciesPicture) -> Result<(), NoMemory>
    requires { IsPoliciesDrawable picture.now }
    ensures { OnOk result (text.new.items ≡ text.old.items ++ decade_axis picture.now) }
{
    push_ticks(text, picture)?;
    text.extend_from_slice(b"<text x='430' y='586' text-anchor='middle'>slot</text>\n")?;
    Ok(())
}

/// The marks and the numbers of powers of ten.
fn push_ticks(text: &mut Vec<u8>, picture: &PoliciesPicture) -> Result<(), NoMemory>
    requires { IsPoliciesDrawable picture.now }
    ensures { OnOk result (text.new.items ≡ text.old.items ++ decade_ticks picture.now) }
{
    let powers = decades(picture);
    let step = step_of(powers);
    for turn in 0..powers / step + 1 {
        push_tick(text, picture, turn * step)?;
    }
    Ok(())
}

/// The mark and the number of a power of ten.
fn push_tick(text: &mut Vec<u8>, picture: &PoliciesPicture, power: u64) -> Result<(), NoMemory>
    requires drawable { IsPoliciesDrawable picture.now }
    requires few { power ≤ 13 }
    ensures { OnOk result (text.new.items ≡ text.old.items ++ decade_tick picture.now power) }
{
    let number = power_of_ten(power);
    push_power_tick(text, log_x(picture, number), 550, u128::from(number))?;
    Ok(())
}
