//! The line of a verdict.
ghost use Rattle.std.specs.Prelude.{◌≡◌, IfOk, length};
ghost use Rattle.cert_check.specs.Reasons.{NamesCoflow, NamesCoflowIfAny};
ghost use Rattle.report_text.specs.Text.{side_word};
ghost use Rattle.online_check.specs.VerdictLine.{reason_text, verdict_text};

use cert_check::{Reason, Verdict};
use coflow_units::{NoMemory, Side};
use flow_table::Table;
use report_text::Report;
use std::alloc::Global;

/// The line of a verdict on a report, with its line feed: `yes` and the stated totals, or `no` and the reason with its
/// values. Coflows are told by their ids. The error is want of memory.
pub fn verdict_text(
    alloc: Global,
    table: &Table,
    report: &Report,
    verdict: Verdict,
) -> Result<Vec<u8>, NoMemory>
    requires { NamesCoflowIfAny (length table.now.ids) verdict }
    ensures { IfOk result (λ text. text.items ≡ verdict_text table.now.ids report.now verdict) }
{
    let line = match verdict {
        Verdict::Yes => format!(in alloc;
            "yes bound {} slack {} cost {}\n",
            report.bound, report.slack, report.cost
        )?,
        Verdict::No(reason) => reason_text(alloc, table, reason)?,
    };
    Ok(line.into_bytes())
}

/// The line of a reason.
pub(crate) fn reason_text(alloc: Global, table: &Table, reason: Reason) -> Result<String, NoMemory>
    requires { NamesCoflow (length table.now.ids) reason }
    ensures { IfOk result (λ line. line.bytes.items ≡ reason_text table.now.ids reason) }
{
    let line = match reason {
        Reason::NotPermutation { place } => format!(in alloc; "no order {place}\n"),
        Reason::PortRange { place, number } => format!(in alloc; "no port {place} {number}\n"),
        Reason::WeightWrong {
            coflow,
            stated,
            real,
        } => {
            let id = table.id(coflow);
            format!(in alloc; "no weight {id} {stated} {real}\n")
        }
        Reason::Infeasible { coflow } => {
            let id = table.id(coflow);
            format!(in alloc; "no infeasible {id}\n")
        }
        Reason::BoundTooHigh { stated, real } => format!(in alloc; "no bound {stated} {real}\n"),
        Reason::SlackWrong { stated, real } => format!(in alloc; "no slack {stated} {real}\n"),
        Reason::NoFlow { slot, flow } => format!(in alloc; "no flow {slot} {flow}\n"),
        Reason::ClashIn { slot, port } => {
            let (side, number) = (side_word(port.side), port.number);
            format!(in alloc; "no clash {slot} {side} {number}\n")
        }
        Reason::UnitsOf { flow, have, want } => format!(in alloc;
            "no units {flow} {have} {want}\n"
        ),
        Reason::DoneWrong {
            coflow,
            stated,
            real,
        } => {
            let id = table.id(coflow);
            format!(in alloc; "no done {id} {stated} {real}\n")
        }
        Reason::CostWrong { stated, real } => format!(in alloc; "no cost {stated} {real}\n"),
        Reason::RatioBroken { cost, most } => format!(in alloc; "no ratio {cost} {most}\n"),
    };
    Ok(line?)
}

/// The word of a side.
fn side_word(side: Side) -> &'static str
    ensures { result.now ≡ side_word side }
{
    match side {
        Side::Ingress => "in",
        Side::Egress => "out",
    }
}
