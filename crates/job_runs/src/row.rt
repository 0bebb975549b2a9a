//! The rows of a file of jobs: what each says.
ghost use Rattle.std.specs.Prelude.{◌≡◌};
ghost use Rattle.text_fields.specs.Lines.{without_first};

use crate::meeting::Waiting;
use std::alloc::Global;
use std::str;
use text_fields::{Fields, number_of};

/// The rankers on a bench.
#[derive(Clone, Copy)]
pub enum Bench {
    /// None.
    Empty,
    /// One that learns.
    Attained,
    /// One that answers no order, and then the first arrival first.
    Stutter,
}

/// What a row says, but for the words of its command.
#[derive(Clone, Copy)]
pub struct Row<'a> {
    /// The name of the file of the trace.
    pub trace: &'a str,
    /// The name of the file beside it.
    pub beside: &'a str,
    /// How many bytes a read gives at most.
    pub piece: u32,
    /// The call for a file that fails, counted from 1; 0 is none.
    pub failing_call: u32,
    /// How many bytes the sink takes until it fails.
    pub fail_after: Option<u64>,
    /// The units that the first two wires do not accept, counted from 1; 0 is none.
    pub fail_at: [u64; 2],
    /// Who waits for one another.
    pub waiting: Waiting,
    /// The rankers on the bench.
    pub bench: Bench,
    /// Whether the text and what the wires accepted are printed.
    pub told: bool,
}

/// The row that the first fields of a line say, or none.
pub fn row_of<'a>(fields: &mut Fields<'a>) -> Option<Row<'a>> {
    Some(Row {
        trace: word(fields),
        beside: word(fields),
        piece: index(fields)?,
        failing_call: index(fields)?,
        fail_after: number_of(fields.next()),
        fail_at: [number_of(fields.next())?, number_of(fields.next())?],
        waiting: waiting_of(word(fields), index(fields)?, index(fields)?)?,
        bench: bench_of(word(fields))?,
        told: told_of(word(fields))?,
    })
}

/// The next field. It is empty where no field is left, or where it is not UTF-8.
fn word<'a>(fields: &mut Fields<'a>) -> &'a str
    ensures left { fields.new ≡ without_first fields.old }
{
    str::from_utf8(fields.next()).unwrap_or("")
}

/// The number of the next field, below 2^32.
fn index(fields: &mut Fields<'_>) -> Option<u32> {
    u32::try_from(number_of(fields.next())?).ok()
}

/// Who waits, with the lines of the first and the second client.
fn waiting_of(name: &str, first: u32, second: u32) -> Option<Waiting> {
    match name {
        "nobody" => Some(Waiting::Nobody),
        "clients" => Some(Waiting::Clients(first, second)),
        "client" => Some(Waiting::Client(first)),
        "client_and_wires" => Some(Waiting::ClientAndWires(first)),
        "wires" => Some(Waiting::Wires),
        _ => None,
    }
}

/// The bench with this name.
fn bench_of(name: &str) -> Option<Bench> {
    match name {
        "empty" => Some(Bench::Empty),
        "attained" => Some(Bench::Attained),
        "stutter" => Some(Bench::Stutter),
        _ => None,
    }
}

/// Whether the text and the wires are told.
fn told_of(name: &str) -> Option<bool> {
    match name {
        "told" => Some(true),
        "untold" => Some(false),
        _ => None,
    }
}

/// The program's name, and a word for each field that is left. None means that memory was wanting.
pub fn words_of(alloc: Global, fields: &mut Fields<'_>) -> Option<Vec<String>> {
    let mut words = Vec::new(alloc);
    push_word(alloc, &mut words, "sincronia")?;
    while !fields.is_done() {
        push_word(alloc, &mut words, word(fields))?;
    }
    Some(words)
}

/// Puts a word behind the others. None means that memory was wanting.
fn push_word(alloc: Global, words: &mut Vec<String>, text: &str) -> Option<()> {
    let Ok(word) = String::from_str(alloc, text) else {
        return None;
    };
    match words.push(word) {
        Ok(()) => Some(()),
        Err(_) => None,
    }
}
