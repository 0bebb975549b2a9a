//! The colours.
ghost use Rattle.std.specs.Prelude.{◌≡◌, ◌<◌, ◌++◌, OnOk};
ghost use Rattle.picture.specs.Palette.{blue, colour_at, colour_of, colour_text, green, ink_on, luminance, place_of, red};

use crate::number::{number_at, push_number};
use crate::value::Picture;
use coflow_units::NoMemory;

/// The colours of places, from dark to light: the scale "viridis" of matplotlib without its lightest part.
pub const COLOURS: [u32; 32] = [
    0x440154, 0x460b5e, 0x481668, 0x481f70, 0x482979, 0x46327e, 0x443a83, 0x414287, 0x3e4c8a,
    0x3a538b, 0x375b8d, 0x33628d, 0x306a8e, 0x2d718e, 0x2a778e, 0x277f8e, 0x25858e, 0x228c8d,
    0x20928c, 0x1f9a8a, 0x1fa188, 0x22a785, 0x27ad81, 0x31b57b, 0x3bbb75, 0x48c16e, 0x56c667,
    0x67cc5c, 0x77d153, 0x89d548, 0x9dd93b, 0xb0dd2f,
];

/// The colour of a place, where there are so many places.
pub(crate) fn colour_at(place: u32, places: u64) -> u32
    ensures { result ≡ colour_at place places }
{
    let level = u64::from(place.saturating_sub(1)) * 32 / places.max(1);
    number_at(&COLOURS, level as usize)
}

/// The colour of a coflow, by its place among all coflows.
pub(crate) fn colour_of(picture: &Picture, coflow: u32) -> u32
    ensures { result ≡ colour_of picture.now coflow }
{
    colour_at(
        place_of(picture, coflow),
        picture.ids.as_slice().len() as u64,
    )
}

/// The place of a coflow, or 0 for one past the places.
fn place_of(picture: &Picture, coflow: u32) -> u32
    ensures { result ≡ place_of picture.now coflow }
{
    number_at(picture.places.as_slice(), coflow as usize)
}

/// What words on a colour are written in.
pub(crate) fn ink_on(colour: u32) -> u32
    ensures { result ≡ ink_on colour }
{
    if luminance(colour) < 1_200_000 {
        0xffffff
    } else {
        0
    }
}

/// How light a colour is.
fn luminance(colour: u32) -> u32
    ensures { result ≡ luminance colour }
{
    2126 * red(colour) + 7152 * green(colour) + 722 * blue(colour)
}

/// The red of a colour.
fn red(colour: u32) -> u32
    ensures red { result ≡ red colour }
    ensures small { result < 256 }
{
    colour / 0x10000 % 0x100
}

/// The green of a colour.
fn green(colour: u32) -> u32
    ensures green { result ≡ green colour }
    ensures small { result < 256 }
{
    colour / 0x100 % 0x100
}

/// The blue of a colour.
fn blue(colour: u32) -> u32
    ensures blue { result ≡ blue colour }
    ensures small { result < 256 }
{
    colour % 0x100
}

/// A colour.
pub(crate) fn push_colour(text: &mut Vec<u8>, colour: u32) -> Result<(), NoMemory>
    ensures { OnOk result (text.new.items ≡ text.old.items ++ colour_text colour) }
{
    push_number(text, b"rgb(", u64::from(red(colour)))?;
    push_number(text, b",", u64::from(green(colour)))?;
    push_number(text, b",", u64::from(blue(colour)))?;
    text.extend_from_slice(b")")?;
    Ok(())
}
