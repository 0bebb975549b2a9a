//! What a line of a report says.
ghost use Rattle.std.specs.Prelude.{◌≡◌, ◌↔◌, IfOk, IsTrue, None, Some, codes, if◌then◌else◌};
ghost use Rattle.report_text.specs.Readers.{IsChargeThen, IsFlowsOf, IsPlaceOf, IsRunOf, IsTotalOf, IsVersionOf, IsWeightWord, Rises, Stops, run_if};

use crate::lines::{count_then, number_then, side_then};
use crate::value::PlaceLine;
use coflow_units::{Items, MAX_SLOT, MAX_WEIGHT, NoMemory, Port, Run};
use std::alloc::Global;

/// Whether the first line is that of a text with weights.
pub(crate) fn version_of(line: &[u8]) -> Option<bool>
    ensures { IsVersionOf line.now result }
{
    if line == b"sincronia 1".as_slice() {
        return Some(false);
    }
    if line == b"sincronia 2".as_slice() {
        return Some(true);
    }
    None
}

/// Whether the line is the last one of a text.
pub fn is_end(line: &[u8]) -> bool
    ensures { IsTrue result ↔ (line.now ≡ codes "end") }
{
    line == b"end".as_slice()
}

/// The id, the port, the y and the slot of completion that the bytes begin with, and the bytes behind them.
fn charge_then(bytes: &[u8]) -> Option<(PlaceLine, &[u8])>
    ensures { IsChargeThen (λ x. (x.0, x.1.now)) bytes.now result }
{
    let Some((id, rest)) = number_then(bytes, u128::from(u32::MAX)) else {
        return None;
    };
    let Some((side, rest)) = side_then(rest) else {
        return None;
    };
    let Some((number, rest)) = number_then(rest, u128::from(u32::MAX)) else {
        return None;
    };
    let Some((y, rest)) = number_then(rest, u128::MAX) else {
        return None;
    };
    let Some((done, rest)) = number_then(rest, u128::from(u64::MAX)) else {
        return None;
    };
    let port = Port {
        side,
        number: number as u32,
    };
    let place = PlaceLine {
        id: id as u32,
        port,
        y,
        done: done as u64,
    };
    Some((place, rest))
}

/// The weight at the end of a place line, or its absence.
fn weight_of(bytes: &[u8], weighed: bool) -> Option<Option<u64>>
    ensures { IsWeightWord weighed bytes.now result }
{
    if !weighed {
        return if bytes.is_empty() { Some(None) } else { None };
    }
    let Some((weight, rest)) = number_then(bytes, u128::from(MAX_WEIGHT)) else {
        return None;
    };
    if weight == 0 {
        return None;
    }
    if !rest.is_empty() {
        return None;
    }
    Some(Some(weight as u64))
}

/// The place and the weight of the line of place `number`.
pub(crate) fn place_of(line: &[u8], number: u128, weighed: bool) -> Option<(PlaceLine, Option<u64>)>
    ensures { IsPlaceOf number weighed line.now result }
{
    let Some(rest) = line.strip_prefix(b"place") else {
        return None;
    };
    let Some((read, rest)) = number_then(rest, u128::MAX) else {
        return None;
    };
    if read != number {
        return None;
    }
    let Some((place, rest)) = charge_then(rest) else {
        return None;
    };
    let Some(weight) = weight_of(rest, weighed) else {
        return None;
    };
    Some((place, weight))
}

/// The number behind the word, where the line is these two alone.
pub fn total_of(line: &[u8], word: &[u8]) -> Option<u128>
    ensures { IsTotalOf word.now line.now result }
{
    let Some(rest) = line.strip_prefix(word) else {
        return None;
    };
    let Some((total, rest)) = number_then(rest, u128::MAX) else {
        return None;
    };
    if rest.is_empty() { Some(total) } else { None }
}

/// The number is above the last of the list.
fn rises(flows: &[u32], flow: u32) -> bool
    ensures { Rises flows.now flow result }
{
    match flows.last() {
        Some(last) => *last < flow,
        None => true,
    }
}

/// Reads the ascending flow numbers that the bytes are, each behind a space, in place of those of a list, and answers
/// whether they are such.
fn read_flows(bytes: &[u8], flows: &mut Vec<u32>) -> Result<bool, NoMemory>
    requires { Stops bytes.now }
    ensures { IfOk result (λ read. IsFlowsOf bytes.now (if read then Some flows.new.items else None)) }
{
    flows.clear();
    let mut rest = bytes;
    while !rest.is_empty() {
        let Some((flow, behind)) = count_then(rest, u64::from(u32::MAX)) else {
            return Ok(false);
        };
        if !rises(flows, flow as u32) {
            return Ok(false);
        }
        flows.push(flow as u32)?;
        rest = behind;
    }
    Ok(true)
}

/// Reads the flows of the run of the line in place of those of a list, and answers how many slots the run has, or none
/// where the line is that of no run. The error is want of memory.
pub(crate) fn read_run(line: &[u8], flows: &mut Vec<u32>) -> Result<Option<u64>, NoMemory>
    ensures { IfOk result (λ slots. IsRunOf line.now (run_if slots flows.new.items)) }
{
    let Some(rest) = line.strip_prefix(b"run") else {
        return Ok(None);
    };
    let Some((length, rest)) = count_then(rest, MAX_SLOT) else {
        return Ok(None);
    };
    if length == 0 {
        return Ok(None);
    }
    if !read_flows(rest, flows)? {
        return Ok(None);
    }
    Ok(Some(length))
}

/// The run of the line, or none where the line is that of no run. The error is want of memory.
pub fn run_of(alloc: Global, line: &[u8]) -> Result<Option<Run>, NoMemory>
    ensures { IfOk result (λ v. IsRunOf line.now v) }
{
    let mut flows = Vec::new(alloc);
    let Some(length) = read_run(line, &mut flows)? else {
        return Ok(None);
    };
    let flows = Items::from_vec(flows);
    Ok(Some(Run { length, flows }))
}
