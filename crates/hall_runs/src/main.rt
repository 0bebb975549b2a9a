//! Plays a hall: eight callers, the driver and seven clients, ask drawn commands, each on a thread of its own. Then the
//! hall is closed. Its arguments are the file of a trace, whose units are megabytes, a seed, and how many commands each
//! caller asks.
//!
//! It prints how many commands were asked and how many entries the closed journal has. With a further word `tell` it
//! prints instead what each caller was told, in the order of its calls, and the journal. With `time` it prints how many
//! nanoseconds the callers took, and with `mutex` how many they take where a mutex stands round a master in place of
//! the hall.
//!
//! The exit code is 0 where the hall was closed, and 1 where something was wanting.
#![tactic(auto)]

mod callers;
mod closing;
mod draw;
mod game;
mod locked;
mod playing;
mod seats;
mod stop;
mod telling;

use crate::playing::play_words;
use crate::stop::Stop;
use outside::DiskShelf;
use std::env;
use std::process::ExitCode;

fn main(rt: HostRuntime) -> ExitCode {
    let ended = match words_of(&rt) {
        Ok(words) => play_words(&rt, rt.alloc(), &mut DiskShelf::new(rt), &words),
        Err(stop) => Err(stop),
    };
    match ended {
        Ok(()) => ExitCode::from(0),
        Err(stop) => {
            // A line that cannot be written changes nothing.
            let _ = eprintln!(rt; "hall_runs: {stop}");
            ExitCode::from(1)
        }
    }
}

/// The words of the call.
fn words_of(rt: &HostRuntime) -> Result<Vec<String>, Stop> {
    let Ok(words) = env::args(rt) else {
        return Err(Stop::Usage);
    };
    match words.collect::<Vec<String>>(rt.alloc()) {
        Ok(words) => Ok(words),
        Err(_) => Err(Stop::NoMemory),
    }
}
