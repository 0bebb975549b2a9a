//! The mean completion of the schedule, and the mean that no schedule is below.
ghost use Rattle.std.specs.List.{list_all};
ghost use Rattle.std.specs.Prelude.{◌≡◌, ◌==◌, ◌<◌, ◌≤◌, ◌^◌, ◌++◌, IsTrue, OnOk};
ghost use Rattle.picture.specs.Layout.{IsDrawable};
ghost use Rattle.picture.specs.Means.{dashes_of, drop_of, is_in_window, line_text, mean_lines, mean_text, mean_words, mean_x, means_text, means_title, tenths_down, tenths_up, total_of, weight_sum, words_of};

use crate::layout::{curve_end, curve_top, slot_count};
use crate::number::{push_number, push_one_digit};
use crate::value::Picture;
use coflow_units::NoMemory;

/// A mean that a picture shows.
#[derive(Clone, Copy, Debug, PartialEq, Eq)]
pub(crate) enum Mean {
    /// The mean completion of the schedule.
    OfSchedule,
    /// The mean of the bound: no schedule's is below it.
    OfBound,
}

/// Both means, in the title and as lines.
pub(crate) fn push_means(text: &mut Vec<u8>, picture: &Picture) -> Result<(), NoMemory>
    requires { IsDrawable picture.now }
    ensures { OnOk result (text.new.items ≡ text.old.items ++ means_text picture.now) }
{
    push_title(text, picture)?;
    push_mean(text, picture, Mean::OfSchedule)?;
    push_mean(text, picture, Mean::OfBound)?;
    Ok(())
}

/// The second line of the title.
fn push_title(text: &mut Vec<u8>, picture: &Picture) -> Result<(), NoMemory>
    requires { IsDrawable picture.now }
    ensures { OnOk result (text.new.items ≡ text.old.items ++ means_title picture.now) }
{
    let weight = weight_sum(picture);
    if weight == 0 {
        return Ok(());
    }
    text.extend_from_slice(b"<text x='70' y='44'>")?;
    text.extend_from_slice(mean_words(picture))?;
    text.extend_from_slice(b" at most ")?;
    push_one_digit(text, tenths_up(picture.cost, weight))?;
    text.extend_from_slice(b" slots, and no schedule's is below ")?;
    push_one_digit(text, tenths_down(picture.bound, weight))?;
    text.extend_from_slice(b"</text>\n")?;
    Ok(())
}

/// The tenths of the mean of a schedule with this cost, rounded up.
pub(crate) fn tenths_up(cost: u128, weight: u64) -> u128
    requires small { cost ≤ 2 ^ 120 }
    requires some { 0 < weight }
    ensures { result ≡ tenths_up cost weight }
{
    (10 * cost).div_ceil(u128::from(weight))
}

/// The tenths of the mean that no schedule is below, rounded down.
fn tenths_down(bound: u128, weight: u64) -> u128
    requires small { bound ≤ 2 ^ 120 }
    requires some { 0 < weight }
    ensures { result ≡ tenths_down bound weight }
{
    10 * bound / u128::from(weight)
}

/// The sum of the weights.
fn weight_sum(picture: &Picture) -> u64
    requires { IsDrawable picture.now }
    ensures { result ≡ weight_sum picture.now }
{
    picture.weights.as_slice().iter().sum()
}

/// The words of the mean.
fn mean_words(picture: &Picture) -> &'static [u8]
    ensures { result.now ≡ mean_words picture.now }
{
    if are_ones(picture.weights.as_slice()) {
        b"mean completion"
    } else {
        b"weighted mean completion"
    }
}

/// Whether each weight is 1.
fn are_ones(weights: &[u64]) -> bool
    ensures { result ≡ list_all (λ w. w == 1) weights.now }
{
    weights.iter().all(|weight| *weight == 1)
}

/// A mean, where it lies in the window.
fn push_mean(text: &mut Vec<u8>, picture: &Picture, mean: Mean) -> Result<(), NoMemory>
    requires { IsDrawable picture.now }
    ensures { OnOk result (text.new.items ≡ text.old.items ++ mean_text picture.now mean) }
{
    if !is_in_window(picture, total_of(picture, mean)) {
        return Ok(());
    }
    push_lines(text, picture, mean)?;
    Ok(())
}

/// Whether the mean of a total lies in the window.
fn is_in_window(picture: &Picture, total: u128) -> bool
    requires { IsDrawable picture.now }
    ensures { result ≡ is_in_window picture.now total }
{
    let weight = u128::from(weight_sum(picture));
    let window = picture.window;
    0 < weight
        && u128::from(window.first - 1) * weight <= total
        && total <= u128::from(window.last) * weight
}

/// The line of a mean over the curve, and a piece of it beside its words.
fn push_lines(text: &mut Vec<u8>, picture: &Picture, mean: Mean) -> Result<(), NoMemory>
    requires drawable { IsDrawable picture.now }
    requires inside { IsTrue (is_in_window picture.now (total_of picture.now mean)) }
    ensures { OnOk result (text.new.items ≡ text.old.items ++ mean_lines picture.now mean) }
{
    let top = curve_top(picture);
    let x = mean_x(picture, total_of(picture, mean));
    let drop = drop_of(mean);
    push_line(text, dashes_of(mean), x, top, curve_end(picture))?;
    push_line(text, dashes_of(mean), 856, top + drop - 12, top + drop + 2)?;
    push_number(text, b"<text x='868' y='", top + drop)?;
    text.extend_from_slice(b"'>")?;
    text.extend_from_slice(words_of(picture, mean))?;
    text.extend_from_slice(b"</text>\n")?;
    Ok(())
}

/// A line downwards.
pub(crate) fn push_line(
    text: &mut Vec<u8>,
    dashes: &[u8],
    x: u64,
    top: u64,
    end: u64,
) -> Result<(), NoMemory>
    ensures { OnOk result (text.new.items ≡ text.old.items ++ line_text dashes.now x top end) }
{
    push_number(text, b"<path d='M", x)?;
    push_number(text, b" ", top)?;
    push_number(text, b"V", end)?;
    text.extend_from_slice(b"' stroke='#000000'")?;
    text.extend_from_slice(dashes)?;
    text.extend_from_slice(b"/>\n")?;
    Ok(())
}

/// Where the mean of a total lies, from left.
fn mean_x(picture: &Picture, total: u128) -> u64
    requires drawable { IsDrawable picture.now }
    requires inside { IsTrue (is_in_window picture.now total) }
    ensures { result ≡ mean_x picture.now total }
{
    let weight = u128::from(weight_sum(picture));
    let before = u128::from(picture.window.first - 1) * weight;
    let whole = u128::from(slot_count(picture)) * weight;
    70 + ((total - before) * 720 / whole) as u64
}

/// The sum of weight times completion whose mean it is.
fn total_of(picture: &Picture, mean: Mean) -> u128
    ensures { result ≡ total_of picture.now mean }
{
    match mean {
        Mean::OfSchedule => picture.cost,
        Mean::OfBound => picture.bound,
    }
}

/// The words beside the line of a mean.
fn words_of(picture: &Picture, mean: Mean) -> &'static [u8]
    ensures { result.now ≡ words_of picture.now mean }
{
    match mean {
        Mean::OfSchedule => mean_words(picture),
        Mean::OfBound => b"no schedule's mean is below",
    }
}

/// How the line of a mean is drawn.
fn dashes_of(mean: Mean) -> &'static [u8]
    ensures { result.now ≡ dashes_of mean }
{
    match mean {
        Mean::OfSchedule => b"",
        Mean::OfBound => b" stroke-dasharray='5 3'",
    }
}

/// How far below where the curve begins the words stand.
fn drop_of(mean: Mean) -> u64
    ensures drop { result ≡ drop_of mean }
    ensures least { 14 ≤ result }
    ensures most { result ≤ 34 }
{
    match mean {
        Mean::OfSchedule => 14,
        Mean::OfBound => 34,
    }
}
