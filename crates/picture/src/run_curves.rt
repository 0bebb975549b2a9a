//! The curves of an online run.
ghost use Rattle.std.specs.Prelude.{◌≡◌, ◌≤◌, ◌++◌, All, OnOk};
ghost use Rattle.std.specs.List.{flat_map};
ghost use Rattle.picture.specs.declared.value.Step.{Step};
ghost use Rattle.picture.specs.Layout.{IsSpan};
ghost use Rattle.picture.specs.Run.{IsRunDrawable};
ghost use Rattle.picture.specs.RunSvg.{coflows_y, curves_text, run_curve, run_step, steps_of, style_of, time_x};

use crate::layout::span_edge;
use crate::number::push_number;
use crate::run_value::RunPicture;
use crate::value::{Span, Step};
use coflow_units::NoMemory;

/// A curve of an online run.
#[derive(Clone, Copy, Debug, PartialEq, Eq)]
pub(crate) enum RunCurve {
    /// How many coflows have arrived.
    Arrived,
    /// How many coflows are completed.
    Completed,
}

/// Both curves, with what they show.
pub(crate) fn push_curves(text: &mut Vec<u8>, picture: &RunPicture) -> Result<(), NoMemory>
    requires { IsRunDrawable picture.now }
    ensures { OnOk result (text.new.items ≡ text.old.items ++ curves_text picture.now) }
{
    push_number(
        text,
        b"<text x='70' y='70'>coflows, slots ",
        picture.span.first,
    )?;
    push_number(text, b" to ", picture.span.last)?;
    text.extend_from_slice(
        b"</text>\n<svg x='70' y='80' width='720' height='360' viewBox='70 80 720 360'>\n",
    )?;
    push_curve(text, picture, RunCurve::Arrived)?;
    push_curve(text, picture, RunCurve::Completed)?;
    text.extend_from_slice(b"</svg>\n")?;
    Ok(())
}

/// A curve as an area.
fn push_curve(text: &mut Vec<u8>, picture: &RunPicture, kind: RunCurve) -> Result<(), NoMemory>
    requires { IsRunDrawable picture.now }
    ensures { OnOk result (text.new.items ≡ text.old.items ++ run_curve picture.now kind) }
{
    text.extend_from_slice(b"<path d='M68 442")?;
    push_steps(text, picture, steps_of(picture, kind))?;
    text.extend_from_slice(b"H792V442Z'")?;
    text.extend_from_slice(style_of(kind))?;
    Ok(())
}

/// The steps of a curve.
fn steps_of(picture: &RunPicture, kind: RunCurve) -> &[Step]
    requires { IsRunDrawable picture.now }
    ensures steps { result.now ≡ steps_of picture.now kind }
    ensures few { All (λ (s : Step). s.done ≤ picture.now.coflows) result.now }
{
    match kind {
        RunCurve::Arrived => picture.arrivals.as_slice(),
        RunCurve::Completed => picture.done.as_slice(),
    }
}

/// How a curve is drawn.
pub(crate) fn style_of(kind: RunCurve) -> &'static [u8]
    ensures { result.now ≡ style_of kind }
{
    match kind {
        RunCurve::Arrived => {
            b" stroke-width='2' fill='#dddddd' stroke='#0072b2' stroke-dasharray='6 3'/>\n"
        }
        RunCurve::Completed => b" stroke-width='2' fill='#ffffff' stroke='#d55e00'/>\n",
    }
}

/// The steps of a curve, up to the end of the span.
fn push_steps(text: &mut Vec<u8>, picture: &RunPicture, steps: &[Step]) -> Result<(), NoMemory>
    requires drawable { IsRunDrawable picture.now }
    requires few { All (λ (s : Step). s.done ≤ picture.now.coflows) steps.now }
    ensures { OnOk result (text.new.items ≡ text.old.items ++ flat_map (run_step picture.now) steps.now) }
{
    for step in steps {
        push_step(text, picture, *step)?;
    }
    Ok(())
}

/// A step of a curve, where it is not behind the span.
fn push_step(text: &mut Vec<u8>, picture: &RunPicture, step: Step) -> Result<(), NoMemory>
    requires drawable { IsRunDrawable picture.now }
    requires few { step.done ≤ picture.now.coflows }
    ensures { OnOk result (text.new.items ≡ text.old.items ++ run_step picture.now step) }
{
    if step.slot > picture.span.last {
        return Ok(());
    }
    push_number(text, b"H", time_x(picture.span, step.slot))?;
    push_number(text, b"V", coflows_y(picture, step.done))?;
    Ok(())
}

/// Where a time of the span lies, from left.
pub(crate) fn time_x(span: Span, time: u64) -> u64
    requires span { IsSpan span }
    requires upto { time ≤ span.last }
    ensures { result ≡ time_x span time }
{
    span_edge(span, time.saturating_sub(span.first - 1))
}

/// Where so many coflows lie, from above.
fn coflows_y(picture: &RunPicture, count: u64) -> u64
    requires drawable { IsRunDrawable picture.now }
    requires few { count ≤ picture.now.coflows }
    ensures { result ≡ coflows_y picture.now count }
{
    440 - count * 360 / picture.coflows.max(1)
}
