//! The line of a verdict on an online run.
ghost use Rattle.std.specs.Prelude.{◌≡◌, IfOk, length};
ghost use Rattle.online_check.specs.Reasons.{NamesOneOf};
ghost use Rattle.online_check.specs.OnlineLine.{online_reason_text, online_yes_text};

use crate::verdict::OnlineReason;
use crate::verdict_line::reason_text;
use cert_check::Reason;
use coflow_units::NoMemory;
use flow_table::Table;
use online_text::Online;
use std::alloc::Global;

/// The line of a yes: the stated total and the stated cost.
pub(crate) fn online_yes_text(alloc: Global, online: &Online) -> Result<Vec<u8>, NoMemory>
    ensures { IfOk result (λ text. text.items ≡ online_yes_text online.now) }
{
    let line = format!(in alloc; "yes total {} cost {}\n", online.total, online.cost)?;
    Ok(line.into_bytes())
}

/// The line of a reason. Coflows are told by their ids.
pub(crate) fn online_reason_text(
    alloc: Global,
    table: &Table,
    reason: OnlineReason,
) -> Result<String, NoMemory>
    requires { NamesOneOf (length table.now.ids) reason }
    ensures { IfOk result (λ line. line.bytes.items ≡ online_reason_text table.now.ids reason) }
{
    let shared = match reason {
        OnlineReason::TotalTooHigh { stated, real } => {
            return Ok(format!(in alloc; "no total {stated} {real}\n")?);
        }
        OnlineReason::Early { slot, coflow } => {
            let id = table.id(coflow);
            return Ok(format!(in alloc; "no early {slot} {id}\n")?);
        }
        OnlineReason::Listed { index } => return Ok(format!(in alloc; "no listed {index}\n")?),
        OnlineReason::NotPermutation { place } => Reason::NotPermutation { place },
        OnlineReason::PortRange { place, number } => Reason::PortRange { place, number },
        OnlineReason::Infeasible { coflow } => Reason::Infeasible { coflow },
        OnlineReason::NoFlow { slot, flow } => Reason::NoFlow { slot, flow },
        OnlineReason::ClashIn { slot, port } => Reason::ClashIn { slot, port },
        OnlineReason::UnitsOf { flow, have, want } => Reason::UnitsOf { flow, have, want },
        OnlineReason::DoneWrong {
            coflow,
            stated,
            real,
        } => Reason::DoneWrong {
            coflow,
            stated,
            real,
        },
        OnlineReason::CostWrong { stated, real } => Reason::CostWrong { stated, real },
    };
    reason_text(alloc, table, shared)
}
