//! The program that tells the numbers of a schedule: hands its words, the files and the standard output to the
//! library's one call, and ends with its code.
#![tactic(auto)]

use command_files::Status;
use outside::{DiskShelf, StdSink};
use stats_cli::{StatsStatus, sincronia_stats};
use std::env;
use std::io::ErrorKind;
use std::process::ExitCode;

fn main(rt: HostRuntime) -> ExitCode {
    let status = run(&rt);
    if status.code() > 0 {
        // A line that cannot be written changes nothing.
        let _ = eprintln!(rt; "sincronia_stats: {status}");
    }
    ExitCode::from(status.code())
}

/// Tells what the words ask for. A word that is not UTF-8 is refused as the words are.
fn run(rt: &HostRuntime) -> StatsStatus {
    let alloc = rt.alloc();
    let words = match env::args(rt) {
        Ok(words) => words,
        Err(error) if error.kind() == ErrorKind::OutOfMemory => {
            return StatsStatus::Ended(Status::NoMemory);
        }
        Err(_) => return StatsStatus::Usage,
    };
    let Ok(words) = words.collect::<Vec<String>>(alloc) else {
        return StatsStatus::Ended(Status::NoMemory);
    };
    let mut shelf = DiskShelf::new(*rt);
    let mut out = StdSink::new(rt.stdout());
    sincronia_stats(alloc, &words, &mut shelf, &mut out)
}
