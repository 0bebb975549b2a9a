//! The texts of made coflows.
ghost use Rattle.std.specs.Prelude.{◌≡◌, ◌++◌, IfOk, OnOk, decimal};
ghost use Rattle.workload.specs.Text.{coflow_line, mapper_words, reducer_word, reducer_words, trace_text, weight_line, weights_text};
ghost use Rattle.coflow_units.specs.Text.{ended, spaced};

use crate::coflow::{MadeCoflow, MadeReducer};
use coflow_units::NoMemory;
use itoa::Buffer;
use std::alloc::Global;

/// The trace of these coflows.
pub(crate) fn write_trace(alloc: Global, coflows: &[MadeCoflow]) -> Result<Vec<u8>, NoMemory>
    ensures { IfOk result (λ text. text.items ≡ trace_text coflows.now) }
{
    let mut text = Vec::new(alloc);
    text.extend_from_slice(b"150 200\n")?;
    for coflow in coflows {
        push_coflow(&mut text, coflow)?;
    }
    Ok(text)
}

/// The weights of these coflows.
pub(crate) fn write_weights(alloc: Global, coflows: &[MadeCoflow]) -> Result<Vec<u8>, NoMemory>
    ensures { IfOk result (λ text. text.items ≡ weights_text coflows.now) }
{
    let mut text = Vec::new(alloc);
    for coflow in coflows {
        push_weight(&mut text, coflow)?;
    }
    Ok(text)
}

/// The line of a coflow in the trace.
fn push_coflow(text: &mut Vec<u8>, coflow: &MadeCoflow) -> Result<(), NoMemory>
    ensures { OnOk result (text.new.items ≡ text.old.items ++ ended (coflow_line coflow.now)) }
{
    push_number(text, coflow.id)?;
    push_spaced(text, coflow.arrival)?;
    push_mappers(text, coflow.mappers.as_slice())?;
    push_reducers(text, coflow.reducers.as_slice())?;
    text.extend_from_slice(b"\n")?;
    Ok(())
}

/// How many mappers there are, and their locations.
fn push_mappers(text: &mut Vec<u8>, mappers: &[u64]) -> Result<(), NoMemory>
    ensures { OnOk result (text.new.items ≡ text.old.items ++ mapper_words mappers.now) }
{
    push_spaced(text, mappers.len() as u64)?;
    for location in mappers {
        push_spaced(text, *location)?;
    }
    Ok(())
}

/// How many reducers there are, and each of them.
fn push_reducers(text: &mut Vec<u8>, reducers: &[MadeReducer]) -> Result<(), NoMemory>
    ensures { OnOk result (text.new.items ≡ text.old.items ++ reducer_words reducers.now) }
{
    push_spaced(text, reducers.len() as u64)?;
    for reducer in reducers {
        push_reducer(text, *reducer)?;
    }
    Ok(())
}

/// A reducer behind a space.
fn push_reducer(text: &mut Vec<u8>, reducer: MadeReducer) -> Result<(), NoMemory>
    ensures { OnOk result (text.new.items ≡ text.old.items ++ reducer_word reducer) }
{
    push_spaced(text, reducer.location)?;
    text.extend_from_slice(b":")?;
    push_number(text, reducer.megabytes)
}

/// The line of a coflow in the weights.
fn push_weight(text: &mut Vec<u8>, coflow: &MadeCoflow) -> Result<(), NoMemory>
    ensures { OnOk result (text.new.items ≡ text.old.items ++ ended (weight_line coflow.now)) }
{
    push_number(text, coflow.id)?;
    push_spaced(text, coflow.weight)?;
    text.extend_from_slice(b"\n")?;
    Ok(())
}

/// A number behind a space.
fn push_spaced(text: &mut Vec<u8>, number: u64) -> Result<(), NoMemory>
    ensures { OnOk result (text.new.items ≡ text.old.items ++ spaced number) }
{
    text.extend_from_slice(b" ")?;
    push_number(text, number)
}

/// A number, in decimal digits.
fn push_number(text: &mut Vec<u8>, number: u64) -> Result<(), NoMemory>
    ensures { OnOk result (text.new.items ≡ text.old.items ++ decimal number) }
{
    let mut buffer = Buffer::new();
    text.extend_from_slice(buffer.format(number).as_bytes())?;
    Ok(())
}
