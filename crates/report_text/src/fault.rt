//! Why a text gave no report.
ghost use Rattle.std.specs.Prelude.{◌≡◌};
ghost use Rattle.report_text.specs.declared.fault.ReportFault.TheVariants.{NoMemory as NoMemoryFault};

use coflow_units::NoMemory;
use thiserror::Error;

/// Why a text was not read.
#[derive(Clone, Copy, Debug, PartialEq, Eq, Error)]
pub enum ReportFault {
    /// No text of a report has this line after the lines before it. Lines count from 1.
    #[error("line {line}")]
    BadText { line: u32 },
    /// No memory was to be had.
    #[error("no memory")]
    NoMemory,
}

impl From<NoMemory> for ReportFault {
    ghost from_gives = { λ _ e. e ≡ NoMemoryFault };

    fn from(_fault: NoMemory) -> ReportFault {
        ReportFault::NoMemory
    }
}
