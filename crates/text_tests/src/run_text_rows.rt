//! Rows of tables, each of them a line, and values that were had. A test that finds no memory stops at once.
ghost use Rattle.std.specs.Prelude.{◌≡◌, Ok};

use std::alloc::Global;
use std::fmt::Debug;
use std::process::Abort;

/// The value of an answer.
pub(crate) fn had<T, E: Debug + Drop>(rt: &impl Abort, answer: Result<T, E>) -> T
    ensures { answer ≡ Ok result }
{
    match answer {
        Ok(value) => value,
        Err(fault) => panic!(rt; "{fault:?}"),
    }
}

/// The text of a row, in which a `/` stands for a line end, and what stands behind the arrow.
pub(crate) fn parts_of<'a>(rt: &impl Abort, alloc: Global, row: &'a str) -> (String, &'a str) {
    let Some((short, want)) = row.split_once(" => ") else {
        panic!(rt; "a row without an arrow");
    };
    let mut text = String::new(alloc);
    let mut pieces = short.split('/');
    if let Some(first) = pieces.next() {
        had(rt, text.push_str(first));
    }
    for piece in pieces {
        had(rt, text.push_str("\n"));
        had(rt, text.push_str(piece));
    }
    (text, want)
}

/// Stops where a row has another answer.
pub(crate) fn is_told(rt: &impl Abort, row: &str, have: &str, want: &str) {
    if have != want {
        panic!(rt; "{row} is told as {have}");
    }
}
