//! The text of an online run, written.
ghost use Rattle.std.specs.Prelude.{◌≡◌, ◌<◌, ◌+◌, ◌++◌, IfOk, OnOk, length, map};
ghost use Rattle.std.specs.List.{flat_map};
ghost use Rattle.coflow_units.specs.Text.{ended, text_of};
ghost use Rattle.online_text.specs.Text.{certificate_lines, charge_words, done_line, epoch_lines, online_text, order_line_at, order_lines, release_line_at};

use crate::value::{DoneLine, Epoch, Online, OnlinePlace, ReleaseLine};
use coflow_units::{NoMemory, Port};
use report_text::{Text, push_named, push_number, word_of};
use std::alloc::Global;

/// The text of an online run.
///
/// Words are separated by one space, each line ends with one line feed, and numbers are decimal without leading zeros.
/// The lines are `sincronia online 2`; for each publishing `epoch T`, for each place `place K ID SIDE PORT Y` with K
/// counting from 1, and `bound B`; for each coflow `done ID SLOT`; `cost C`; for each place of the released certificate
/// `release K ID SIDE PORT Y Z` with K counting from 1; `total B`; for each run `run LENGTH FLOW FLOW ...`; and `end`.
/// The lines of the runs and the last one are made when the text is written.
///
/// The error is want of memory.
pub fn write_online(alloc: Global, online: Online) -> Result<Text, NoMemory>
    ensures text { IfOk result (λ text. text ≡ online_text online) }
{
    let mut head = Vec::new(alloc);
    head.extend_from_slice(b"sincronia online 2\n")?;
    push_epochs(&mut head, online.epochs.as_slice())?;
    push_done(&mut head, online.done.as_slice())?;
    push_named(&mut head, b"cost", online.cost)?;
    push_certificate(&mut head, online.release.as_slice())?;
    push_named(&mut head, b"total", online.total)?;
    Ok(Text::with_runs(head, online.runs))
}

/// The lines of the publishings.
fn push_epochs(text: &mut Vec<u8>, epochs: &[Epoch]) -> Result<(), NoMemory>
    ensures { OnOk result (text.new.items ≡ text.old.items ++ text_of (flat_map epoch_lines epochs.now)) }
{
    for epoch in epochs {
        push_epoch(text, epoch)?;
    }
    Ok(())
}

/// The lines of a publishing.
fn push_epoch(text: &mut Vec<u8>, epoch: &Epoch) -> Result<(), NoMemory>
    ensures { OnOk result (text.new.items ≡ text.old.items ++ text_of (epoch_lines epoch.now)) }
{
    push_named(text, b"epoch", u128::from(epoch.time))?;
    push_order(text, epoch.places.as_slice())?;
    push_named(text, b"bound", epoch.bound)
}

/// The lines of an order.
fn push_order(text: &mut Vec<u8>, places: &[OnlinePlace]) -> Result<(), NoMemory>
    ensures { OnOk result (text.new.items ≡ text.old.items ++ text_of (order_lines places.now)) }
{
    for place in 0..places.len() {
        push_place(text, places, place)?;
    }
    Ok(())
}

/// The line of a place, which is counted from 0 here and from 1 in the text.
fn push_place(text: &mut Vec<u8>, places: &[OnlinePlace], place: usize) -> Result<(), NoMemory>
    requires { place < length places.now }
    ensures { OnOk result (text.new.items ≡ text.old.items ++ ended (order_line_at places.now place)) }
{
    let OnlinePlace { id, port, y } = places[place];
    text.extend_from_slice(b"place")?;
    push_number(text, place as u128 + 1)?;
    push_charge(text, id, port, y)?;
    text.extend_from_slice(b"\n")?;
    Ok(())
}

/// What a line says of a place, behind its number.
fn push_charge(text: &mut Vec<u8>, id: u32, port: Port, y: u128) -> Result<(), NoMemory>
    ensures { OnOk result (text.new.items ≡ text.old.items ++ charge_words id port y) }
{
    push_number(text, u128::from(id))?;
    text.extend_from_slice(b" ")?;
    text.extend_from_slice(word_of(port.side))?;
    push_number(text, u128::from(port.number))?;
    push_number(text, y)
}

/// The lines of the completions.
fn push_done(text: &mut Vec<u8>, done: &[DoneLine]) -> Result<(), NoMemory>
    ensures { OnOk result (text.new.items ≡ text.old.items ++ text_of (map done_line done.now)) }
{
    for coflow in done {
        push_completion(text, *coflow)?;
    }
    Ok(())
}

/// The line of a completion.
fn push_completion(text: &mut Vec<u8>, done: DoneLine) -> Result<(), NoMemory>
    ensures { OnOk result (text.new.items ≡ text.old.items ++ ended (done_line done)) }
{
    text.extend_from_slice(b"done")?;
    push_number(text, u128::from(done.id))?;
    push_number(text, u128::from(done.slot))?;
    text.extend_from_slice(b"\n")?;
    Ok(())
}

/// The lines of the released certificate.
fn push_certificate(text: &mut Vec<u8>, places: &[ReleaseLine]) -> Result<(), NoMemory>
    ensures { OnOk result (text.new.items ≡ text.old.items ++ text_of (certificate_lines places.now)) }
{
    for place in 0..places.len() {
        push_release(text, places, place)?;
    }
    Ok(())
}

/// The line of a place of the released certificate, which is counted from 0 here and from 1 in the text.
fn push_release(text: &mut Vec<u8>, places: &[ReleaseLine], place: usize) -> Result<(), NoMemory>
    requires { place < length places.now }
    ensures { OnOk result (text.new.items ≡ text.old.items ++ ended (release_line_at places.now place)) }
{
    let ReleaseLine { id, port, y, z } = places[place];
    text.extend_from_slice(b"release")?;
    push_number(text, place as u128 + 1)?;
    push_charge(text, id, port, y)?;
    push_number(text, z)?;
    text.extend_from_slice(b"\n")?;
    Ok(())
}
