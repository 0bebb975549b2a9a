//! The line on standard error.
use crate::status::StatsStatus;
use std::fmt;

/// What the program prints on standard error behind its name, where its exit code is not 0.
impl fmt::Display for StatsStatus {
    ghost use Rattle.std.specs.Prelude.{Some};
    ghost use Rattle.stats_cli.specs.Status.{line_of};

    ghost output = { λ s. Some (line_of s) };

    fn fmt<W: fmt::Write>(&self, f: &mut fmt::Formatter<W>) -> fmt::Result {
        match self {
            StatsStatus::Ok => Ok(()),
            StatsStatus::No => f.write_str(
                "report: not right for this trace and these weights; sincronia check says why",
            ),
            StatsStatus::Usage => f.write_str(
                "usage: sincronia_stats TRACE REPORT [--weights FILE] [--unit MEGABYTES] [--slot-ms MILLISECONDS] [--csv]",
            ),
            StatsStatus::Ended(status) => write!(f, "{status}"),
        }
    }
}
