//! The line on standard error.
use crate::status::PictureStatus;
use std::fmt;

/// What the program prints on standard error behind its name, where its exit code is not 0.
impl fmt::Display for PictureStatus {
    ghost use Rattle.std.specs.Prelude.{Some};
    ghost use Rattle.picture_cli.specs.Status.{line_of};

    ghost output = { λ s. Some (line_of s) };

    fn fmt<W: fmt::Write>(&self, f: &mut fmt::Formatter<W>) -> fmt::Result {
        match self {
            PictureStatus::Ok => Ok(()),
            PictureStatus::No => f.write_str(
                "report: not right for this trace and these weights; sincronia check says why",
            ),
            PictureStatus::Usage => f.write_str(
                "usage: sincronia_picture TRACE REPORT|--policies [--weights FILE] [--unit MEGABYTES] [--from SLOT] [--to SLOT] [--side in|out] [--slot-ms MILLISECONDS]",
            ),
            PictureStatus::NoSlots { first, last } => {
                write!(f, "window: no slot from {first} to {last}")
            }
            PictureStatus::TooManyBars { bars } => write!(
                f,
                "limit: bars {bars}, at most 262144 are drawn; choose a window with --from and --to"
            ),
            PictureStatus::Ended(status) => write!(f, "{status}"),
        }
    }
}
