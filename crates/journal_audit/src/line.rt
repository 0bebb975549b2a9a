//! The line of a verdict.
ghost use Rattle.std.specs.Prelude.{◌≡◌, IfOk};
ghost use Rattle.journal_audit.specs.Line.{audit_text, reason_text};

use crate::verdict::{Audit, AuditReason};
use coflow_units::NoMemory;
use std::alloc::Global;

/// The line of a verdict on a printed journal, with its line feed: `yes` and the numbers, or `no` and the reason with
/// its values. The error is want of memory.
pub fn audit_text(alloc: Global, verdict: Audit) -> Result<Vec<u8>, NoMemory>
    ensures { IfOk result (λ text. text.items ≡ audit_text verdict) }
{
    let line = match verdict {
        Audit::Yes {
            entries,
            versions,
            slots,
        } => format!(in alloc; "yes entries {entries} versions {versions} slots {slots}\n")?,
        Audit::No(reason) => reason_text(alloc, reason)?,
    };
    Ok(line.into_bytes())
}

/// The line of a reason.
fn reason_text(alloc: Global, reason: AuditReason) -> Result<String, NoMemory>
    ensures { IfOk result (λ line. line.bytes.items ≡ reason_text reason) }
{
    let line = match reason {
        AuditReason::NoId { position } => format!(in alloc; "no id {position}\n"),
        AuditReason::NoEntry { position, .. } => format!(in alloc; "no entry {position}\n"),
        AuditReason::NoClose { slot } => format!(in alloc; "no close {slot}\n"),
        AuditReason::NoOrder { version, place } => {
            format!(in alloc; "no order {version} {place}\n")
        }
        AuditReason::NoPull {
            client,
            line,
            stated,
            real,
        } => format!(in alloc; "no pull {client} {line} {stated} {real}\n"),
        AuditReason::NoVersion { client, line } => {
            format!(in alloc; "no version {client} {line}\n")
        }
        AuditReason::NoRun { slot } => format!(in alloc; "no run {slot}\n"),
    };
    Ok(line?)
}
