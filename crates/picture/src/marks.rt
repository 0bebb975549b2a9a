//! What stands on the bars.
ghost use Rattle.std.specs.Prelude.{◌≡◌, ◌<◌, ◌≤◌, ◌++◌, OnOk, decimal, length};
ghost use Rattle.picture.specs.Layout.{IsDrawable, IsInside};
ghost use Rattle.picture.specs.Marks.{all_marks, circle_text, end_of, end_text, has_marks, has_room, id_of, id_text, mark_text, marks_text, row_marks};

use crate::layout::{bar_width, bar_x, edge_x, port_y, row_height};
use crate::number::{number_at, push_number};
use crate::palette::{colour_of, ink_on, push_colour};
use crate::value::{Bar, Picture};
use coflow_units::NoMemory;
use itoa::Buffer;

/// What stands on the bars, where rows are high enough.
pub(crate) fn push_marks(text: &mut Vec<u8>, picture: &Picture) -> Result<(), NoMemory>
    requires { IsDrawable picture.now }
    ensures { OnOk result (text.new.items ≡ text.old.items ++ marks_text picture.now) }
{
    if !has_marks(picture) {
        return Ok(());
    }
    text.extend_from_slice(b"<g font-size='9' text-anchor='middle'>\n")?;
    push_all(text, picture)?;
    text.extend_from_slice(b"</g>\n")?;
    Ok(())
}

/// Whether rows are high enough.
pub(crate) fn has_marks(picture: &Picture) -> bool
    requires { IsDrawable picture.now }
    ensures { result ≡ has_marks picture.now }
{
    10 <= row_height(picture)
}

/// What stands on the bars of all ports.
fn push_all(text: &mut Vec<u8>, picture: &Picture) -> Result<(), NoMemory>
    requires { IsDrawable picture.now }
    ensures { OnOk result (text.new.items ≡ text.old.items ++ all_marks picture.now) }
{
    for port in 0..picture.rows.as_slice().len() {
        push_row(text, picture, port)?;
    }
    Ok(())
}

/// What stands on the bars of a port.
fn push_row(text: &mut Vec<u8>, picture: &Picture, port: usize) -> Result<(), NoMemory>
    requires drawable { IsDrawable picture.now }
    requires port { port < length picture.now.rows }
    ensures { OnOk result (text.new.items ≡ text.old.items ++ row_marks picture.now port) }
{
    for bar in picture.rows.as_slice()[port].as_slice() {
        push_mark(text, picture, port as u64, *bar)?;
    }
    Ok(())
}

/// What stands on a bar.
fn push_mark(text: &mut Vec<u8>, picture: &Picture, port: u64, bar: Bar) -> Result<(), NoMemory>
    requires drawable { IsDrawable picture.now }
    requires port { port < length picture.now.rows }
    requires inside { IsInside picture.now.window bar }
    ensures { OnOk result (text.new.items ≡ text.old.items ++ mark_text picture.now port bar) }
{
    push_id(text, picture, port, bar)?;
    push_end(text, picture, port, bar)?;
    Ok(())
}

/// The id of a bar's coflow in the middle of the bar, where it has room.
fn push_id(text: &mut Vec<u8>, picture: &Picture, port: u64, bar: Bar) -> Result<(), NoMemory>
    requires drawable { IsDrawable picture.now }
    requires port { port < length picture.now.rows }
    requires inside { IsInside picture.now.window bar }
    ensures { OnOk result (text.new.items ≡ text.old.items ++ id_text picture.now port bar) }
{
    if !has_room(picture, bar) {
        return Ok(());
    }
    push_number(text, b"<text x='", bar_x(picture, bar))?;
    push_number(text, b"' y='", port_y(picture, port) + 3)?;
    text.extend_from_slice(b"' fill='")?;
    push_colour(text, ink_on(colour_of(picture, bar.coflow)))?;
    push_number(text, b"'>", u64::from(id_of(picture, bar.coflow)))?;
    text.extend_from_slice(b"</text>\n")?;
    Ok(())
}

/// Whether a bar is as wide as the id of its coflow.
fn has_room(picture: &Picture, bar: Bar) -> bool
    requires drawable { IsDrawable picture.now }
    requires inside { IsInside picture.now.window bar }
    ensures { result ≡ has_room picture.now bar }
{
    let digits = digits_of(u64::from(id_of(picture, bar.coflow)));
    6 * digits + 4 <= bar_width(picture, bar)
}

/// How many digits a number has.
pub(crate) fn digits_of(number: u64) -> u64
    ensures digits { result ≡ length (decimal number) }
    ensures few { result ≤ 40 }
{
    let mut buffer = Buffer::new();
    buffer.format(number).len() as u64
}

/// The mark at the right end of a bar that completes its coflow.
fn push_end(text: &mut Vec<u8>, picture: &Picture, port: u64, bar: Bar) -> Result<(), NoMemory>
    requires drawable { IsDrawable picture.now }
    requires port { port < length picture.now.rows }
    requires inside { IsInside picture.now.window bar }
    ensures { OnOk result (text.new.items ≡ text.old.items ++ end_text picture.now port bar) }
{
    if bar.last != end_of(picture, bar.coflow) {
        return Ok(());
    }
    let slots = bar.last - (picture.window.first - 1);
    push_circle(text, edge_x(picture, slots), port_y(picture, port))?;
    Ok(())
}

/// A mark.
pub(crate) fn push_circle(text: &mut Vec<u8>, x: u64, y: u64) -> Result<(), NoMemory>
    ensures { OnOk result (text.new.items ≡ text.old.items ++ circle_text x y) }
{
    push_number(text, b"<circle cx='", x)?;
    push_number(text, b"' cy='", y)?;
    text.extend_from_slice(b"' r='2' fill='#ffffff' stroke='#000000'/>\n")?;
    Ok(())
}

/// The id of a coflow, or 0 for one past the ids.
pub(crate) fn id_of(picture: &Picture, coflow: u32) -> u32
    ensures { result ≡ id_of picture.now coflow }
{
    number_at(picture.ids.as_slice(), coflow as usize)
}

/// The slot in which a coflow is completed, or 0 for one past them.
fn end_of(picture: &Picture, coflow: u32) -> u64
    ensures { result ≡ end_of picture.now coflow }
{
    match picture.ends.as_slice().get(coflow as usize) {
        Some(end) => *end,
        None => 0,
    }
}
