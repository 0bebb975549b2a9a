//! The frames and the axes.
ghost use Rattle.std.specs.Prelude.{◌≡◌, ◌<◌, ◌≤◌, ◌-◌, ◌++◌, OnOk, length};
ghost use Rattle.picture.specs.Layout.{IsDrawable, IsSpan};
ghost use Rattle.picture.specs.Svg.{axes_text, done_axis, frame_text, height_label, port_axis, port_tick, port_ticks, slot_axis, slot_tick, slot_ticks};

use crate::layout::{
    bars_end, bars_height, curve_end, curve_top, port_y, slot_x, slots_of, span_of,
};
use crate::number::push_number;
use crate::ticks::step_of;
use crate::value::{Picture, Span};
use coflow_units::NoMemory;

/// Frames and axes.
pub fn push_axes(text: &mut Vec<u8>, picture: &Picture) -> Result<(), NoMemory>
    requires { IsDrawable picture.now }
    ensures { OnOk result (text.new.items ≡ text.old.items ++ axes_text picture.now) }
{
    push_frame(text, 80, bars_height(picture))?;
    push_slot_axis(text, span_of(picture), bars_end(picture))?;
    push_port_axis(text, picture)?;
    push_frame(text, curve_top(picture), 120)?;
    push_slot_axis(text, span_of(picture), curve_end(picture))?;
    push_done_axis(text, picture)?;
    Ok(())
}

/// A frame around bars or curve.
pub fn push_frame(text: &mut Vec<u8>, top: u64, size: u64) -> Result<(), NoMemory>
    ensures { OnOk result (text.new.items ≡ text.old.items ++ frame_text top size) }
{
    push_number(text, b"<rect x='70' y='", top)?;
    push_number(text, b"' width='720' height='", size)?;
    text.extend_from_slice(b"' fill='none' stroke='#000000'/>\n")?;
    Ok(())
}

/// The axis of slots below where bars or curve end.
pub fn push_slot_axis(text: &mut Vec<u8>, span: Span, end: u64) -> Result<(), NoMemory>
    requires span { IsSpan span }
    requires end { end ≤ 760 }
    ensures { OnOk result (text.new.items ≡ text.old.items ++ slot_axis span end) }
{
    push_slot_ticks(text, span, end, step_of(slots_of(span)))?;
    push_number(text, b"<text x='430' y='", end + 36)?;
    text.extend_from_slice(b"' text-anchor='middle'>slot</text>\n")?;
    Ok(())
}

/// The marks and the numbers of round slots.
fn push_slot_ticks(text: &mut Vec<u8>, span: Span, end: u64, step: u64) -> Result<(), NoMemory>
    requires span { IsSpan span }
    requires end { end ≤ 760 }
    requires step { 1 ≤ step }
    ensures { OnOk result (text.new.items ≡ text.old.items ++ slot_ticks span end step) }
{
    for turn in span.first.div_ceil(step)..span.last / step + 1 {
        push_slot_tick(text, span, end, turn * step)?;
    }
    Ok(())
}

/// The mark and the number of a slot.
fn push_slot_tick(text: &mut Vec<u8>, span: Span, end: u64, slot: u64) -> Result<(), NoMemory>
    requires span { IsSpan span }
    requires end { end ≤ 760 }
    requires from { span.first ≤ slot }
    requires upto { slot ≤ span.last }
    ensures { OnOk result (text.new.items ≡ text.old.items ++ slot_tick span end slot) }
{
    let x = slot_x(span, slot);
    push_number(text, b"<rect x='", x)?;
    push_number(text, b"' y='", end)?;
    push_number(text, b"' width='1' height='5'/><text x='", x)?;
    push_number(text, b"' y='", end + 18)?;
    push_number(text, b"' text-anchor='middle'>", slot)?;
    text.extend_from_slice(b"</text>\n")?;
    Ok(())
}

/// The axis of ports.
fn push_port_axis(text: &mut Vec<u8>, picture: &Picture) -> Result<(), NoMemory>
    requires { IsDrawable picture.now }
    ensures { OnOk result (text.new.items ≡ text.old.items ++ port_axis picture.now) }
{
    let ports = picture.rows.as_slice().len() as u64;
    push_port_ticks(text, picture, step_of(ports))?;
    Ok(())
}

/// The marks and the numbers of round ports.
fn push_port_ticks(text: &mut Vec<u8>, picture: &Picture, step: u64) -> Result<(), NoMemory>
    requires drawable { IsDrawable picture.now }
    requires step { 1 ≤ step }
    ensures { OnOk result (text.new.items ≡ text.old.items ++ port_ticks picture.now step) }
{
    let ports = picture.rows.as_slice().len() as u64;
    for turn in 0..(ports - 1) / step + 1 {
        push_port_tick(text, picture, turn * step)?;
    }
    Ok(())
}

/// The mark and the number of a port.
fn push_port_tick(text: &mut Vec<u8>, picture: &Picture, port: u64) -> Result<(), NoMemory>
    requires drawable { IsDrawable picture.now }
    requires port { port < length picture.now.rows }
    ensures { OnOk result (text.new.items ≡ text.old.items ++ port_tick picture.now port) }
{
    let y = port_y(picture, port);
    push_number(text, b"<rect x='65' y='", y)?;
    text.extend_from_slice(b"' width='5' height='1'/>")?;
    push_height_label(text, y, port)?;
    Ok(())
}

/// A number beside what is at this height.
pub fn push_height_label(text: &mut Vec<u8>, y: u64, number: u64) -> Result<(), NoMemory>
    requires { y ≤ 760 }
    ensures { OnOk result (text.new.items ≡ text.old.items ++ height_label y number) }
{
    push_number(text, b"<text x='62' y='", y + 4)?;
    push_number(text, b"' text-anchor='end'>", number)?;
    text.extend_from_slice(b"</text>\n")?;
    Ok(())
}

/// The axis of completed coflows.
fn push_done_axis(text: &mut Vec<u8>, picture: &Picture) -> Result<(), NoMemory>
    requires { IsDrawable picture.now }
    ensures { OnOk result (text.new.items ≡ text.old.items ++ done_axis picture.now) }
{
    let coflows = picture.ids.as_slice().len() as u64;
    push_height_label(text, curve_top(picture), coflows)?;
    push_height_label(text, curve_end(picture), 0)?;
    Ok(())
}
