//! The text of a picture.
ghost use Rattle.std.specs.Prelude.{◌≡◌, ◌++◌, IfOk, OnOk};
ghost use Rattle.picture.specs.Layout.{IsDrawable};
ghost use Rattle.picture.specs.Svg.{ground_text, picture_text};

use crate::axes::push_axes;
use crate::bars_text::push_bars;
use crate::curve_text::push_curve;
use crate::layout::curve_end;
use crate::legend::push_legend;
use crate::marks::push_marks;
use crate::means::push_means;
use crate::number::push_number;
use crate::title::push_title;
use crate::value::Picture;
use coflow_units::NoMemory;
use std::alloc::Global;

/// The text of a picture: SVG 1.1, without scripts, and with nothing that lies outside of it.
///
/// It has a title with cost and bound, how many times the least cost the schedule costs at most, rounded up, and the
/// mean completions; the bars in a frame, a port a row, where each bar has the colour of its coflow's place, names its
/// coflow, and is marked where it completes it; the curve of completed coflows in another, with lines where the means
/// lie; axes with round numbers; and a legend of the colours.
///
/// The window has a slot, and the bars lie inside it; the ports are at most as many as a side may have, and from 1; and
/// the weights add up to less than 2^64. Cost and bound are at most 2^120.
/// The error is want of memory.
pub fn write_picture(alloc: Global, picture: &Picture) -> Result<Vec<u8>, NoMemory>
    requires drawable { IsDrawable picture.now }
    ensures text { IfOk result (λ bytes. bytes.items ≡ picture_text picture.now) }
{
    let mut text = Vec::new(alloc);
    push_ground(&mut text, curve_end(picture) + 50)?;
    push_title(&mut text, picture)?;
    push_bars(&mut text, picture)?;
    push_marks(&mut text, picture)?;
    push_curve(&mut text, picture)?;
    push_means(&mut text, picture)?;
    push_axes(&mut text, picture)?;
    push_legend(&mut text, picture)?;
    text.extend_from_slice(b"</svg>\n")?;
    Ok(text)
}

/// The beginning of a picture of this height, with a white ground.
pub(crate) fn push_ground(text: &mut Vec<u8>, height: u64) -> Result<(), NoMemory>
    ensures { OnOk result (text.new.items ≡ text.old.items ++ ground_text height) }
{
    push_number(
        text,
        b"<svg xmlns='http://www.w3.org/2000/svg' version='1.1' width='1150' height='",
        height,
    )?;
    push_number(
        text,
        b"' font-family='sans-serif' font-size='13'>\n<rect width='1150' height='",
        height,
    )?;
    text.extend_from_slice(b"' fill='#ffffff'/>\n")?;
    Ok(())
}
