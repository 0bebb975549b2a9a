//! What a line of an online run says.
ghost use Rattle.std.specs.Prelude.{◌≡◌, ◌↔◌, IsTrue, codes, map};
ghost use Rattle.report_text.specs.Readers.{Rises};
ghost use Rattle.online_text.specs.declared.value.Epoch.{Epoch as EpochValue};
ghost use Rattle.online_text.specs.Readers.{IsChargeThen, IsDoneOf, IsNumberOf, IsNumberedThen, IsPlaceOf, IsReleaseOf, IsTimeOf};

use crate::value::{DoneLine, Epoch, OnlinePlace, ReleaseLine};
use coflow_units::Port;
use report_text::{number_then, side_then};

/// Whether the line is the first one of the text of an online run.
pub(crate) fn is_first(line: &[u8]) -> bool
    ensures { IsTrue result ↔ (line.now ≡ codes "sincronia online 2") }
{
    line == b"sincronia online 2".as_slice()
}

/// The number of at most `most` that the bytes are, behind a space.
fn number_of(bytes: &[u8], most: u128) -> Option<u128>
    ensures { IsNumberOf most bytes.now result }
{
    let Some((number, rest)) = number_then(bytes, most) else {
        return None;
    };
    if rest.is_empty() { Some(number) } else { None }
}

/// The bytes behind the word and the number, where the line begins with these two.
fn numbered_then<'a>(line: &'a [u8], word: &[u8], number: u128) -> Option<&'a [u8]>
    ensures { IsNumberedThen (λ x. x.now) word.now number line.now result }
{
    let Some(rest) = line.strip_prefix(word) else {
        return None;
    };
    let Some((read, rest)) = number_then(rest, u128::MAX) else {
        return None;
    };
    if read == number { Some(rest) } else { None }
}

/// The id, the port and the y that the bytes begin with, and the bytes behind them.
fn charge_then(bytes: &[u8]) -> Option<(OnlinePlace, &[u8])>
    ensures { IsChargeThen (λ x. (x.0, x.1.now)) bytes.now result }
{
    let Some((id, rest)) = number_then(bytes, u128::from(u32::MAX)) else {
        return None;
    };
    let Some((side, rest)) = side_then(rest) else {
        return None;
    };
    let Some((number, rest)) = number_then(rest, u128::from(u32::MAX)) else {
        return None;
    };
    let Some((y, rest)) = number_then(rest, u128::MAX) else {
        return None;
    };
    let port = Port {
        side,
        number: number as u32,
    };
    let id = id as u32;
    Some((OnlinePlace { id, port, y }, rest))
}

/// The time of the line of a publishing.
pub(crate) fn time_of(line: &[u8]) -> Option<u64>
    ensures { IsTimeOf line.now result }
{
    let Some(rest) = line.strip_prefix(b"epoch") else {
        return None;
    };
    let Some(time) = number_of(rest, u128::from(u64::MAX)) else {
        return None;
    };
    Some(time as u64)
}

/// The place of the line of the place with this number of an order.
pub(crate) fn place_of(line: &[u8], number: u128) -> Option<OnlinePlace>
    ensures { IsPlaceOf number line.now result }
{
    let Some(rest) = numbered_then(line, b"place", number) else {
        return None;
    };
    let Some((place, rest)) = charge_then(rest) else {
        return None;
    };
    if rest.is_empty() { Some(place) } else { None }
}

/// The coflow and the slot of the line of a completion.
pub(crate) fn done_of(line: &[u8]) -> Option<DoneLine>
    ensures { IsDoneOf line.now result }
{
    let Some(rest) = line.strip_prefix(b"done") else {
        return None;
    };
    let Some((id, rest)) = number_then(rest, u128::from(u32::MAX)) else {
        return None;
    };
    let Some(slot) = number_of(rest, u128::from(u64::MAX)) else {
        return None;
    };
    Some(DoneLine {
        id: id as u32,
        slot: slot as u64,
    })
}

/// The place of the line of the place with this number of the released certificate.
pub(crate) fn release_of(line: &[u8], number: u128) -> Option<ReleaseLine>
    ensures { IsReleaseOf number line.now result }
{
    let Some(rest) = numbered_then(line, b"release", number) else {
        return None;
    };
    let Some((OnlinePlace { id, port, y }, rest)) = charge_then(rest) else {
        return None;
    };
    let Some(z) = number_of(rest, u128::MAX) else {
        return None;
    };
    Some(ReleaseLine { id, port, y, z })
}

/// The time is above that of the last publishing.
pub(crate) fn rises(epochs: &[Epoch], time: u64) -> bool
    ensures { Rises (map (λ (e : EpochValue). e.time) epochs.now) time result }
{
    match epochs.last() {
        Some(last) => last.time < time,
        None => true,
    }
}
