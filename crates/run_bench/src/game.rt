//! What the words of the call ask for.
ghost use Rattle.std.specs.Prelude.{◌≤◌, IfOk};

use crate::stop::Stop;
use coflow_units::UnitSize;
use flow_table::Table;
use outside::DiskShelf;
use std::env;
use std::time::Duration;
use test_support::table_of_file;

/// The greatest number of runs.
const MAX_RUNS: u32 = 1_000_000;

/// The greatest number of agents.
const MAX_AGENTS: u32 = 64;

/// What is to be measured.
#[derive(Drop)]
pub struct Game {
    pub table: Table,
    pub agents: u32,
    pub runs: u32,
    /// The time is told, and else what was sent.
    pub timed: bool,
    /// How long a wire waits with each send.
    pub wait: Duration,
}

/// What the words ask for.
pub fn game_of(rt: &HostRuntime) -> Result<Game, Stop>
    ensures agents { IfOk result (λ game. 1 ≤ game.agents) }
    ensures runs { IfOk result (λ game. game.runs ≤ 1000000) }
{
    let alloc = rt.alloc();
    let Ok(words) = env::args(rt) else {
        return Err(Stop::Usage);
    };
    let Ok(words) = words.collect::<Vec<String>>(alloc) else {
        return Err(Stop::NoMemory);
    };
    let Some(trace) = words.get(1) else {
        return Err(Stop::Usage);
    };
    Ok(Game {
        agents: number_of(words.get(2))?.clamp(1, MAX_AGENTS),
        runs: number_of(words.get(3))?.min(MAX_RUNS),
        timed: is_time(words.get(4))?,
        wait: wait_of(words.get(5))?,
        table: table_of_file(alloc, &mut DiskShelf::new(*rt), trace, UnitSize::MEGABYTE)?,
    })
}

/// The number that a word is.
fn number_of(word: Option<&String>) -> Result<u32, Stop> {
    let Some(word) = word else {
        return Err(Stop::Usage);
    };
    match word.parse::<u32>() {
        Ok(number) => Ok(number),
        Err(_) => Err(Stop::Usage),
    }
}

/// Whether the time is asked for.
fn is_time(word: Option<&String>) -> Result<bool, Stop> {
    let Some(word) = word else {
        return Ok(false);
    };
    match word.as_str() {
        "time" => Ok(true),
        _ => Err(Stop::Usage),
    }
}

/// The wait of so many microseconds, and none where no word is there.
fn wait_of(word: Option<&String>) -> Result<Duration, Stop> {
    match word {
        Some(_) => Ok(Duration::from_micros(u64::from(number_of(word)?))),
        None => Ok(Duration::ZERO),
    }
}
