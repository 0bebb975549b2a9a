//! The curve of completed coflows.
ghost use Rattle.std.specs.Prelude.{◌≡◌, ◌++◌, OnOk};
ghost use Rattle.std.specs.List.{flat_map};
ghost use Rattle.picture.specs.Layout.{IsDrawable, curve_end, curve_top};
ghost use Rattle.picture.specs.Svg.{curve_head, curve_text, step_text};

use crate::layout::{curve_top, slot_count};
use crate::number::push_number;
use crate::value::{Picture, Step};
use coflow_units::NoMemory;

/// The curve as an area.
pub(crate) fn push_curve(text: &mut Vec<u8>, picture: &Picture) -> Result<(), NoMemory>
    requires { IsDrawable picture.now }
    ensures { OnOk result (text.new.items ≡ text.old.items ++ curve_text picture.now) }
{
    push_head(text, picture)?;
    push_steps(text, picture)?;
    push_number(text, b"H", slot_count(picture))?;
    push_number(text, b"V", picture.ids.as_slice().len() as u64)?;
    text.extend_from_slice(b"Z' fill='#bbbbbb'/>\n</svg>\n")?;
    Ok(())
}

/// The beginning of the curve.
fn push_head(text: &mut Vec<u8>, picture: &Picture) -> Result<(), NoMemory>
    requires { IsDrawable picture.now }
    ensures { OnOk result (text.new.items ≡ text.old.items ++ curve_head picture.now) }
{
    let top = curve_top(picture);
    let coflows = picture.ids.as_slice().len() as u64;
    push_number(text, b"<text x='70' y='", top - 10)?;
    push_number(text, b"'>completed coflows</text>\n<svg x='70' y='", top)?;
    push_number(
        text,
        b"' width='720' height='120' viewBox='0 0 ",
        slot_count(picture),
    )?;
    push_number(text, b" ", coflows)?;
    push_number(
        text,
        b"' preserveAspectRatio='none'>\n<path d='M0 ",
        coflows,
    )?;
    Ok(())
}

/// The steps of the curve.
fn push_steps(text: &mut Vec<u8>, picture: &Picture) -> Result<(), NoMemory>
    requires { IsDrawable picture.now }
    ensures { OnOk result (text.new.items ≡ text.old.items ++ flat_map (step_text picture.now) picture.now.steps) }
{
    for step in picture.steps.as_slice() {
        push_step(text, picture, *step)?;
    }
    Ok(())
}

/// A step of the curve.
fn push_step(text: &mut Vec<u8>, picture: &Picture, step: Step) -> Result<(), NoMemory>
    requires { IsDrawable picture.now }
    ensures { OnOk result (text.new.items ≡ text.old.items ++ step_text picture.now step) }
{
    let before = picture.window.first - 1;
    let coflows = picture.ids.as_slice().len() as u64;
    push_number(text, b"H", step.slot.saturating_sub(before))?;
    push_number(text, b"V", coflows.saturating_sub(step.done))?;
    Ok(())
}
