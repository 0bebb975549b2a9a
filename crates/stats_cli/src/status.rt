//! How the job of telling numbers ended.
ghost use Rattle.std.specs.Prelude.{◌≡◌};
ghost use Rattle.stats_cli.specs.Status.{code_of};

use coflow_units::NoMemory;
use command_files::Status;

/// How the job of telling numbers ended.
#[derive(Clone, Copy, Debug, PartialEq, Eq)]
pub enum StatsStatus {
    /// The numbers were written whole.
    Ok,
    /// The report is not right for the trace and its weights. Nothing was written.
    No,
    /// The words are no command.
    Usage,
    /// The job ended as one of `sincronia` does: a file gave no trace, no weights or no report, the shelf or the sink
    /// failed, or no memory was to be had.
    Ended(Status),
}

impl StatsStatus {
    /// The exit code of the program.
    pub fn code(&self) -> u8
        ensures { result ≡ code_of self.now }
    {
        match self {
            StatsStatus::Ok => 0,
            StatsStatus::No => 1,
            StatsStatus::Usage => 2,
            StatsStatus::Ended(status) => status.code(),
        }
    }
}

impl From<NoMemory> for StatsStatus {
    ghost use Rattle.stats_cli.specs.declared.status.StatsStatus.TheVariants.{Ended};
    ghost use Rattle.command_files.specs.declared.status.Status.TheVariants.{NoMemory};

    ghost from_gives = { λ _ s. s ≡ Ended NoMemory };

    fn from(_fault: NoMemory) -> StatsStatus {
        StatsStatus::Ended(Status::NoMemory)
    }
}
