//! Printed journals, by whomever made: what makes one right, which reason comes first where one is not, what a right
//! one says, and the audit that tells.
#![tactic(auto)]

mod answering;
mod auditing;
mod ids;
pub mod laws;
mod line;
mod orders;
mod parts;
mod pulls;
mod ranks;
mod reasons;
mod replay;
mod stated;
mod verdict;

pub use answering::{answer, is_version};
pub use auditing::audit;
pub use line::audit_text;
pub use verdict::{Audit, AuditReason};
