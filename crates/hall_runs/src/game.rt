//! What the words of the call ask for.
ghost use Rattle.std.specs.Prelude.{◌≤◌, IfOk};
ghost use Rattle.hall_runs.specs.declared.callers.TheConstants.{MAX_EACH};

use crate::callers::MAX_EACH;
use crate::stop::Stop;
use coflow_units::UnitSize;
use flow_table::Table;
use outside::Shelf;
use std::alloc::Global;
use test_support::{FileFault, TextFault, table_of_file};

/// What is printed.
#[derive(Clone, Copy, Debug, PartialEq, Eq)]
pub enum Mode {
    Count,
    Tell,
    Time,
    Mutex,
}

/// What is to be played.
#[derive(Drop)]
pub struct Game {
    pub table: Table,
    pub seed: u32,
    pub commands: u32,
    pub mode: Mode,
}

/// What the words ask for, where the file stands on a shelf.
pub fn game_of<H: Shelf>(alloc: Global, shelf: &mut H, words: &[String]) -> Result<Game, Stop>
    ensures few { IfOk result (λ game. game.commands ≤ MAX_EACH) }
{
    let Some(trace) = words.get(1) else {
        return Err(Stop::Usage);
    };
    Ok(Game {
        seed: number_of(words.get(2))?,
        commands: number_of(words.get(3))?.min(MAX_EACH),
        mode: mode_of(words.get(4))?,
        table: table_of(alloc, shelf, trace)?,
    })
}

/// The number that a word is.
fn number_of(word: Option<&String>) -> Result<u32, Stop> {
    let Some(word) = word else {
        return Err(Stop::Usage);
    };
    match word.parse::<u32>() {
        Ok(number) => Ok(number),
        Err(_) => Err(Stop::Usage),
    }
}

/// What is asked to be printed.
fn mode_of(word: Option<&String>) -> Result<Mode, Stop> {
    let Some(word) = word else {
        return Ok(Mode::Count);
    };
    match word.as_str() {
        "tell" => Ok(Mode::Tell),
        "time" => Ok(Mode::Time),
        "mutex" => Ok(Mode::Mutex),
        _ => Err(Stop::Usage),
    }
}

/// The table of a file's trace, in units of a megabyte.
fn table_of<H: Shelf>(alloc: Global, shelf: &mut H, name: &str) -> Result<Table, Stop> {
    match table_of_file(alloc, shelf, name, UnitSize::MEGABYTE) {
        Ok(table) => Ok(table),
        Err(FileFault::NotRead) => Err(Stop::File),
        Err(FileFault::NoMemory) => Err(Stop::NoMemory),
        Err(FileFault::Text(TextFault::Table(_))) => Err(Stop::Table),
        Err(FileFault::Text(_)) => Err(Stop::Trace),
    }
}
