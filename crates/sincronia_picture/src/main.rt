//! The program that draws: hands its words, the files and the standard output to the library's one call, and ends with
//! its code.
#![tactic(auto)]

use command_files::Status;
use outside::{DiskShelf, StdSink};
use picture_cli::{PictureStatus, sincronia_picture};
use std::env;
use std::io::ErrorKind;
use std::process::ExitCode;

fn main(rt: HostRuntime) -> ExitCode {
    let status = run(&rt);
    if status.code() > 0 {
        // A line that cannot be written changes nothing.
        let _ = eprintln!(rt; "sincronia_picture: {status}");
    }
    ExitCode::from(status.code())
}

/// Draws what the words ask for. A word that is not UTF-8 is refused as the words are.
fn run(rt: &HostRuntime) -> PictureStatus {
    let alloc = rt.alloc();
    let words = match env::args(rt) {
        Ok(words) => words,
        Err(error) if error.kind() == ErrorKind::OutOfMemory => {
            return PictureStatus::Ended(Status::NoMemory);
        }
        Err(_) => return PictureStatus::Usage,
    };
    let Ok(words) = words.collect::<Vec<String>>(alloc) else {
        return PictureStatus::Ended(Status::NoMemory);
    };
    let mut shelf = DiskShelf::new(*rt);
    let mut out = StdSink::new(rt.stdout());
    sincronia_picture(alloc, &words, &mut shelf, &mut out)
}
