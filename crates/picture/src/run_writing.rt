//! The text of the picture of an online run.
ghost use Rattle.std.specs.Prelude.{◌≡◌, ◌≤◌, ◌++◌, IfOk, OnOk};
ghost use Rattle.std.specs.List.{flat_map};
ghost use Rattle.picture.specs.Run.{IsRunDrawable};
ghost use Rattle.picture.specs.RunSvg.{key_text, key_y, run_axes, run_legend, run_picture_text, tick_text, ticks_key, ticks_text, word_of};

use crate::axes::{push_frame, push_height_label, push_slot_axis};
use crate::number::push_number;
use crate::run_curves::{RunCurve, push_curves, style_of, time_x};
use crate::run_title::push_run_title;
use crate::run_value::RunPicture;
use crate::writing::push_ground;
use coflow_units::NoMemory;
use std::alloc::Global;

/// The text of the picture of an online run: SVG 1.1, without scripts, and with nothing that lies outside of it.
///
/// It has a title with the cost, what no schedule that waits for arrivals is below, and how many times the least cost
/// the run costs at most where each completion counts from the arrival, rounded up; in a frame the curve of arrivals
/// and that of completions, with grey between them, and a short line at the foot for each order that is published; axes
/// with round numbers; and a legend.
///
/// The span has a slot; no curve rises above how many coflows there are, which are no more than a trace may have; and
/// no order is published behind the span. The cost is at most 2^120.
/// The error is want of memory.
pub fn write_run_picture(alloc: Global, picture: &RunPicture) -> Result<Vec<u8>, NoMemory>
    requires drawable { IsRunDrawable picture.now }
    ensures text { IfOk result (λ bytes. bytes.items ≡ run_picture_text picture.now) }
{
    let mut text = Vec::new(alloc);
    push_ground(&mut text, 490)?;
    push_run_title(&mut text, picture.costs)?;
    push_curves(&mut text, picture)?;
    push_ticks(&mut text, picture)?;
    push_axes(&mut text, picture)?;
    push_legend(&mut text, picture)?;
    text.extend_from_slice(b"</svg>\n")?;
    Ok(text)
}

/// The short lines at the foot, one where each order is published.
fn push_ticks(text: &mut Vec<u8>, picture: &RunPicture) -> Result<(), NoMemory>
    requires { IsRunDrawable picture.now }
    ensures { OnOk result (text.new.items ≡ text.old.items ++ ticks_text picture.now) }
{
    text.extend_from_slice(b"<path d='")?;
    push_lines(text, picture)?;
    text.extend_from_slice(b"' stroke='#000000'/>\n")?;
    Ok(())
}

/// Each of the short lines.
fn push_lines(text: &mut Vec<u8>, picture: &RunPicture) -> Result<(), NoMemory>
    requires { IsRunDrawable picture.now }
    ensures { OnOk result (text.new.items ≡ text.old.items ++ flat_map (tick_text picture.now) picture.now.ticks) }
{
    for time in picture.ticks.as_slice() {
        push_number(text, b"M", time_x(picture.span, *time))?;
        text.extend_from_slice(b" 430v10")?;
    }
    Ok(())
}

/// The frame and the axes.
fn push_axes(text: &mut Vec<u8>, picture: &RunPicture) -> Result<(), NoMemory>
    requires { IsRunDrawable picture.now }
    ensures { OnOk result (text.new.items ≡ text.old.items ++ run_axes picture.now) }
{
    push_frame(text, 80, 360)?;
    push_slot_axis(text, picture.span, 440)?;
    push_height_label(text, 80, picture.coflows)?;
    push_height_label(text, 440, 0)?;
    Ok(())
}

/// The legend.
fn push_legend(text: &mut Vec<u8>, picture: &RunPicture) -> Result<(), NoMemory>
    requires { IsRunDrawable picture.now }
    ensures { OnOk result (text.new.items ≡ text.old.items ++ run_legend picture.now) }
{
    push_key(text, RunCurve::Arrived)?;
    push_key(text, RunCurve::Completed)?;
    push_ticks_key(text, picture)?;
    Ok(())
}

/// A piece of a curve's line beside its word.
fn push_key(text: &mut Vec<u8>, kind: RunCurve) -> Result<(), NoMemory>
    ensures { OnOk result (text.new.items ≡ text.old.items ++ key_text kind) }
{
    push_number(text, b"<path d='M850 ", key_y(kind))?;
    text.extend_from_slice(b"h24'")?;
    text.extend_from_slice(style_of(kind))?;
    push_number(text, b"<text x='884' y='", key_y(kind) + 4)?;
    text.extend_from_slice(b"'>")?;
    text.extend_from_slice(word_of(kind))?;
    text.extend_from_slice(b"</text>\n")?;
    Ok(())
}

/// The word of a curve.
fn word_of(kind: RunCurve) -> &'static [u8]
    ensures { result.now ≡ word_of kind }
{
    match kind {
        RunCurve::Arrived => b"arrived",
        RunCurve::Completed => b"completed",
    }
}

/// Where a curve stands in the legend, from above.
fn key_y(kind: RunCurve) -> u64
    ensures y { result ≡ key_y kind }
    ensures most { result ≤ 106 }
{
    match kind {
        RunCurve::Arrived => 86,
        RunCurve::Completed => 106,
    }
}

/// A short line beside how many orders are published.
fn push_ticks_key(text: &mut Vec<u8>, picture: &RunPicture) -> Result<(), NoMemory>
    ensures { OnOk result (text.new.items ≡ text.old.items ++ ticks_key picture.now) }
{
    push_number(
        text,
        b"<path d='M862 121v10' stroke='#000000'/>\n<text x='884' y='130'>orders published: ",
        picture.ticks.as_slice().len() as u64,
    )?;
    text.extend_from_slice(b"</text>\n")?;
    Ok(())
}
