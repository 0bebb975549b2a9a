//! The places of a released certificate, from its lines.
ghost use Rattle.std.specs.Prelude.{◌≡◌, ℕ, ◌<◌, All, IfOk, List, length, map};
ghost use Rattle.flow_table.specs.Table.{IsTable, instance_of};
ghost use Rattle.cert_check.specs.Places.{coflows_in};
ghost use Rattle.online_check.specs.Parts.{IsPlaced};
ghost use Rattle.online_check.specs.Released.{plain_line, plain_lines, released_for, released_with};

use crate::verdict::OnlineReason;
use cert_check::{Named, coflows_of, out_of_range};
use coflow_units::NoMemory;
use flow_table::Table;
use online_text::{Online, ReleaseLine};
use release_bound::ReleasePlace;
use report_text::PlaceLine;
use std::alloc::Global;

/// The places of the certificate, place 1 first, or the first reason against their ids and ports.
#[derive(Drop)]
pub(crate) enum Placed {
    Places(Vec<ReleasePlace>),
    Wrong(OnlineReason),
}

/// Looks up the coflows of the release lines by their ids.
pub(crate) fn places_of(alloc: Global, table: &Table, online: &Online) -> Result<Placed, NoMemory>
    ensures placed { IfOk result (λ placed. (weights : List ℕ) (arrival : ℕ → ℕ) →
        IsPlaced (instance_of table.now weights) arrival table.now.ids online.now placed) }
    ensures table { IsTable table.now }
{
    let ports = table.ports();
    let lines = online.release.as_slice();
    let plain = plain_lines(alloc, lines)?;
    let coflows = match coflows_of(alloc, table, &plain)? {
        Named::Coflows(coflows) => coflows,
        Named::Wrong(place) => return Ok(Placed::Wrong(OnlineReason::NotPermutation { place })),
    };
    if let Some((place, number)) = out_of_range(ports, &plain) {
        return Ok(Placed::Wrong(OnlineReason::PortRange { place, number }));
    }
    let places = released(alloc, &coflows, lines)?;
    Ok(Placed::Places(places))
}

/// The lines as those of a plan, which tell of ids and ports alike.
fn plain_lines(alloc: Global, lines: &[ReleaseLine]) -> Result<Vec<PlaceLine>, NoMemory>
    ensures { IfOk result (λ plain. plain.items ≡ plain_lines lines.now) }
{
    let mut plain = Vec::new(alloc);
    for line in lines {
        plain.push(plain_line(*line))?;
    }
    Ok(plain)
}

/// A line as one of a plan that states no completion.
fn plain_line(line: ReleaseLine) -> PlaceLine
    ensures { result ≡ plain_line line }
{
    PlaceLine {
        id: line.id,
        port: line.port,
        y: line.y,
        done: 0,
    }
}

/// The places of the lines, which name these coflows.
fn released(
    alloc: Global,
    coflows: &[u32],
    lines: &[ReleaseLine],
) -> Result<Vec<ReleasePlace>, NoMemory>
    requires { length coflows.now ≡ length lines.now }
    ensures { IfOk result (λ places. (ids : List ℕ) → coflows.now ≡ coflows_in ids (plain_lines lines.now) →
        places.items ≡ map (released_for ids) lines.now) }
{
    let mut places = Vec::new(alloc);
    for index in 0..lines.len() {
        places.push(released_place(coflows[index], lines[index]))?;
    }
    Ok(places)
}

/// What a line of the coflow says as a place.
fn released_place(coflow: u32, line: ReleaseLine) -> ReleasePlace
    ensures { result ≡ released_with coflow line }
{
    ReleasePlace {
        coflow,
        port: line.port,
        y: line.y,
        z: line.z,
    }
}
