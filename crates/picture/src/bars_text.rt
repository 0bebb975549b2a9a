//! The bars.
ghost use Rattle.std.specs.Prelude.{◌≡◌, ◌<◌, ◌≤◌, ◌+◌, ◌++◌, OnOk, length};
ghost use Rattle.coflow_units.specs.declared.limits.TheConstants.{MAX_PORTS};
ghost use Rattle.picture.specs.Layout.{IsDrawable};
ghost use Rattle.picture.specs.Svg.{bar_text, bars_head, bars_text, row_text, rows_text, side_word};

use crate::layout::{bars_height, hairline, slot_count};
use crate::marks::id_of;
use crate::number::{push_number, push_three_digits};
use crate::palette::{colour_of, push_colour};
use crate::value::{Bar, Picture};
use coflow_units::{NoMemory, Side};

/// The bars, with what they show.
pub(crate) fn push_bars(text: &mut Vec<u8>, picture: &Picture) -> Result<(), NoMemory>
    requires { IsDrawable picture.now }
    ensures { OnOk result (text.new.items ≡ text.old.items ++ bars_text picture.now) }
{
    push_head(text, picture)?;
    push_rows(text, picture)?;
    text.extend_from_slice(b"</svg>\n")?;
    Ok(())
}

/// What the bars show, and their beginning.
fn push_head(text: &mut Vec<u8>, picture: &Picture) -> Result<(), NoMemory>
    requires { IsDrawable picture.now }
    ensures { OnOk result (text.new.items ≡ text.old.items ++ bars_head picture.now) }
{
    let window = picture.window;
    text.extend_from_slice(b"<text x='70' y='70'>")?;
    text.extend_from_slice(side_word(window.side))?;
    push_number(text, b" ports, slots ", window.first)?;
    push_number(text, b" to ", window.last)?;
    push_number(
        text,
        b"</text>\n<svg x='70' y='80' width='720' height='",
        bars_height(picture),
    )?;
    push_number(text, b"' viewBox='0 0 ", slot_count(picture))?;
    push_number(text, b" ", 10 * picture.rows.as_slice().len() as u64)?;
    text.extend_from_slice(b"' preserveAspectRatio='none' stroke='#ffffff' stroke-width='")?;
    push_three_digits(text, hairline(picture))?;
    text.extend_from_slice(b"'>\n")?;
    Ok(())
}

/// The word of a side.
fn side_word(side: Side) -> &'static [u8]
    ensures { result.now ≡ side_word side }
{
    match side {
        Side::Ingress => b"ingress",
        Side::Egress => b"egress",
    }
}

/// The bars of all ports.
fn push_rows(text: &mut Vec<u8>, picture: &Picture) -> Result<(), NoMemory>
    requires { IsDrawable picture.now }
    ensures { OnOk result (text.new.items ≡ text.old.items ++ rows_text picture.now) }
{
    for port in 0..picture.rows.as_slice().len() {
        push_row(text, picture, port)?;
    }
    Ok(())
}

/// The bars of a port.
fn push_row(text: &mut Vec<u8>, picture: &Picture, port: usize) -> Result<(), NoMemory>
    requires drawable { IsDrawable picture.now }
    requires port { port < length picture.now.rows }
    ensures { OnOk result (text.new.items ≡ text.old.items ++ row_text picture.now port) }
{
    for bar in picture.rows.as_slice()[port].as_slice() {
        push_bar(text, picture, port as u64, *bar)?;
    }
    Ok(())
}

/// A bar.
fn push_bar(text: &mut Vec<u8>, picture: &Picture, port: u64, bar: Bar) -> Result<(), NoMemory>
    requires drawable { IsDrawable picture.now }
    requires port { port ≤ MAX_PORTS + 1 }
    ensures { OnOk result (text.new.items ≡ text.old.items ++ bar_text picture.now port bar) }
{
    let from = bar.first.saturating_sub(picture.window.first);
    let length = bar.last.saturating_sub(bar.first.saturating_sub(1));
    push_number(text, b"<rect x='", from)?;
    push_number(text, b"' y='", 10 * port + 1)?;
    push_number(text, b"' width='", length)?;
    text.extend_from_slice(b"' height='8' fill='")?;
    push_colour(text, colour_of(picture, bar.coflow))?;
    push_number(
        text,
        b"'><title>coflow ",
        u64::from(id_of(picture, bar.coflow)),
    )?;
    text.extend_from_slice(b"</title></rect>\n")?;
    Ok(())
}
