//! What a report says of its certificate.
ghost use Rattle.std.specs.Prelude.{◌≡◌, ◌≤◌, ◌^◌, ℕ, All, IfOk, List, MatchOption, length, map};
ghost use Rattle.coflow_units.specs.declared.limits.TheConstants.{MAX_WEIGHT};
ghost use Rattle.coflow_units.specs.Certificate.{entry_of};
ghost use Rattle.flow_table.specs.Table.{instance_of};
ghost use Rattle.report_text.specs.Report.{HasWeights};
ghost use Rattle.cert_check.specs.Parts.{HasSoundCertificate, IsFirstFrom};
ghost use Rattle.cert_check.specs.Places.{NamesEach, coflows_in, entry_for, entry_with};
ghost use Rattle.cert_check.specs.Reasons.{certificate_kind};
ghost use Rattle.cert_check.specs.Sound.{AreLoadsOf};

use crate::places::out_of_range;
use crate::stated::{Claim, least_wrong_if_any};
use crate::verdict::Reason;
use coflow_units::{NoMemory, Place};
use dual_cert::{Cert, bound, infeasible, slack};
use flow_table::Table;
use port_load::Loads;
use report_text::{PlaceLine, Report};
use std::alloc::Global;

/// The first reason of the ports, the weights and the certificate, where the places name these coflows.
pub(crate) fn wrong_certificate(
    alloc: Global,
    table: &Table,
    loads: &Loads,
    weights: &[u64],
    coflows: &[u32],
    report: &Report,
) -> Result<Option<Reason>, NoMemory>
    requires loads { AreLoadsOf table.now loads.now }
    requires weight_each { length weights.now ≡ length table.now.ids }
    requires weight_range { All (λ w. w ≤ MAX_WEIGHT) weights.now }
    requires stated_each { HasWeights report.now }
    requires coflows { coflows.now ≡ coflows_in table.now.ids report.now.places }
    requires names { NamesEach (length table.now.ids) (coflows_in table.now.ids report.now.places) }
    ensures { IfOk result (λ found.
        MatchOption found (HasSoundCertificate (instance_of table.now weights.now) table.now.ids report.now)
        (IsFirstFrom (instance_of table.now weights.now) table.now.ids report.now certificate_kind)) }
{
    let places = report.places.as_slice();
    if let Some((place, number)) = out_of_range(table.ports(), places) {
        return Ok(Some(Reason::PortRange { place, number }));
    }
    if let Some(claim) = least_wrong_if_any(coflows, &report.weights, weights) {
        return Ok(Some(wrong_weight(claim)));
    }
    let cert = cert_of(alloc, coflows, places)?;
    if let Some(coflow) = infeasible(loads, weights, &cert) {
        return Ok(Some(Reason::Infeasible { coflow }));
    }
    let real = bound(loads, &cert);
    let stated = report.bound;
    if stated > real {
        return Ok(Some(Reason::BoundTooHigh { stated, real }));
    }
    let real = slack(loads, weights, &cert);
    let stated = report.slack;
    if stated != real {
        return Ok(Some(Reason::SlackWrong { stated, real }));
    }
    Ok(None)
}

/// The wrong weight, as a reason.
fn wrong_weight(claim: Claim) -> Reason
    ensures { result ≡ Reason.WeightWrong claim.coflow claim.stated claim.real }
{
    Reason::WeightWrong {
        coflow: claim.coflow,
        stated: claim.stated,
        real: claim.real,
    }
}

/// The certificate of the places, which name these coflows.
fn cert_of(alloc: Global, coflows: &[u32], lines: &[PlaceLine]) -> Result<Cert, NoMemory>
    requires { length coflows.now ≡ length lines.now }
    ensures { IfOk result (λ cert. (ids : List ℕ) → coflows.now ≡ coflows_in ids lines.now →
        cert ≡ map (entry_for ids) lines.now) }
{
    let mut places = Vec::new(alloc);
    for index in 0..lines.len() {
        places.push(place_of(coflows[index], &lines[index]))?;
    }
    let cert = Cert::of(alloc, &places)?;
    Ok(cert)
}

/// What a certificate takes of a place. It looks at no rest and no load.
fn place_of(coflow: u32, line: &PlaceLine) -> Place
    ensures { entry_of result ≡ entry_with coflow line.now }
{
    Place {
        coflow,
        port: line.port,
        y: line.y,
        rest: 0,
        load: 0,
    }
}
