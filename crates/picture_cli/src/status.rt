//! How the job of drawing ended.
ghost use Rattle.std.specs.Prelude.{◌≡◌};
ghost use Rattle.picture_cli.specs.Status.{code_of};

use coflow_units::NoMemory;
use command_files::Status;
use picture::BarsFault;

/// How the job of drawing ended.
#[derive(Clone, Copy, Debug, PartialEq, Eq)]
pub enum PictureStatus {
    /// The picture was written whole.
    Ok,
    /// The report is not right for the trace and its weights. Nothing was drawn.
    No,
    /// The words are no command.
    Usage,
    /// The window has no slot: its first slot is behind its last one, or behind the last one of the schedule. So it is
    /// where the schedule has no slot.
    NoSlots { first: u64, last: u64 },
    /// The window has so many bars, more than are drawn.
    TooManyBars { bars: u64 },
    /// The job ended as one of `sincronia` does: a file gave no trace, no weights or no report, the shelf or the sink
    /// failed, or no memory was to be had.
    Ended(Status),
}

impl PictureStatus {
    /// The exit code of the program.
    pub fn code(&self) -> u8
        ensures { result ≡ code_of self.now }
    {
        match self {
            PictureStatus::Ok => 0,
            PictureStatus::No => 1,
            PictureStatus::Usage | PictureStatus::NoSlots { first: _, last: _ } => 2,
            PictureStatus::TooManyBars { bars: _ } => 7,
            PictureStatus::Ended(status) => status.code(),
        }
    }
}

impl From<Status> for PictureStatus {
    ghost use Rattle.picture_cli.specs.declared.status.PictureStatus.TheVariants.{Ended};

    ghost from_gives = { λ status s. s ≡ Ended status };

    fn from(status: Status) -> PictureStatus {
        PictureStatus::Ended(status)
    }
}

impl From<NoMemory> for PictureStatus {
    ghost use Rattle.picture_cli.specs.declared.status.PictureStatus.TheVariants.{Ended};
    ghost use Rattle.command_files.specs.declared.status.Status.TheVariants.{NoMemory};

    ghost from_gives = { λ _ s. s ≡ Ended NoMemory };

    fn from(_fault: NoMemory) -> PictureStatus {
        PictureStatus::Ended(Status::NoMemory)
    }
}

impl From<BarsFault> for PictureStatus {
    ghost use Rattle.picture_cli.specs.Status.{IsStatusOfBars};

    ghost from_gives = { λ fault s. IsStatusOfBars fault s };

    fn from(fault: BarsFault) -> PictureStatus {
        match fault {
            BarsFault::TooMany { bars } => PictureStatus::TooManyBars { bars },
            BarsFault::NoMemory => PictureStatus::Ended(Status::NoMemory),
        }
    }
}
