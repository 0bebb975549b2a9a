//! The legend.
ghost use Rattle.std.specs.Prelude.{◌≡◌, ◌<◌, ◌≤◌, ◌++◌, OnOk};
ghost use Rattle.std.specs.List.{flat_map, range_with_len};
ghost use Rattle.picture.specs.Layout.{IsDrawable};
ghost use Rattle.picture.specs.Svg.{legend_text, mark_entry, places_text, swatch_text, swatch_width, swatches};

use crate::marks::{has_marks, push_circle};
use crate::number::push_number;
use crate::palette::{colour_at, push_colour};
use crate::value::Picture;
use coflow_units::NoMemory;

/// The legend.
pub(crate) fn push_legend(text: &mut Vec<u8>, picture: &Picture) -> Result<(), NoMemory>
    requires { IsDrawable picture.now }
    ensures { OnOk result (text.new.items ≡ text.old.items ++ legend_text picture.now) }
{
    text.extend_from_slice(b"<text x='850' y='70'>place in the order</text>\n")?;
    push_swatches(text, picture)?;
    push_places(text, picture)?;
    push_mark_entry(text, picture)?;
    Ok(())
}

/// The squares of the colours.
fn push_swatches(text: &mut Vec<u8>, picture: &Picture) -> Result<(), NoMemory>
    ensures { OnOk result (text.new.items ≡ text.old.items ++
        flat_map (swatch_text picture.now) (range_with_len 0 (swatches picture.now))) }
{
    for k in 0..swatches(picture) {
        push_swatch(text, picture, k)?;
    }
    Ok(())
}

/// How many colours the legend shows.
fn swatches(picture: &Picture) -> u64
    ensures count { result ≡ swatches picture.now }
    ensures some { 1 ≤ result }
    ensures few { result ≤ 32 }
{
    (picture.ids.as_slice().len() as u64).max(1).min(32)
}

/// How wide each of them is.
fn swatch_width(picture: &Picture) -> u64
    ensures width { result ≡ swatch_width picture.now }
    ensures most { result ≤ 256 }
{
    256 / swatches(picture)
}

/// The square of a colour.
fn push_swatch(text: &mut Vec<u8>, picture: &Picture, k: u64) -> Result<(), NoMemory>
    requires { k < 32 }
    ensures { OnOk result (text.new.items ≡ text.old.items ++ swatch_text picture.now k) }
{
    let width = swatch_width(picture);
    push_number(text, b"<rect x='", 850 + width * k)?;
    push_number(text, b"' y='80' width='", width)?;
    text.extend_from_slice(b"' height='12' fill='")?;
    push_colour(text, colour_at(k as u32 + 1, swatches(picture)))?;
    text.extend_from_slice(b"'/>\n")?;
    Ok(())
}

/// The first and the last place, below their colours.
fn push_places(text: &mut Vec<u8>, picture: &Picture) -> Result<(), NoMemory>
    ensures { OnOk result (text.new.items ≡ text.old.items ++ places_text picture.now) }
{
    let end = 850 + swatch_width(picture) * swatches(picture);
    push_number(text, b"<text x='850' y='108'>1</text>\n<text x='", end)?;
    push_number(
        text,
        b"' y='108' text-anchor='end'>",
        picture.ids.as_slice().len() as u64,
    )?;
    text.extend_from_slice(b"</text>\n")?;
    Ok(())
}

/// What a mark says, where there are marks.
fn push_mark_entry(text: &mut Vec<u8>, picture: &Picture) -> Result<(), NoMemory>
    requires { IsDrawable picture.now }
    ensures { OnOk result (text.new.items ≡ text.old.items ++ mark_entry picture.now) }
{
    if !has_marks(picture) {
        return Ok(());
    }
    push_circle(text, 856, 128)?;
    text.extend_from_slice(b"<text x='868' y='132'>completes its coflow</text>\n")?;
    Ok(())
}
