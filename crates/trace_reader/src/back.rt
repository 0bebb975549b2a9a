//! The line of a coflow behind its last mapper.
ghost use Rattle.std.specs.Prelude.{◌≡◌, ◌≤◌, ◌<◌, ◌^◌, ◌+◌, ◌-◌, ◌*◌, ◌&&◌, ◌==◌, ℕ, List, OnOk, length, take, drop, position};
ghost use Rattle.coflow_units.specs.declared.limits.TheConstants.{MAX_REDUCERS};
ghost use Rattle.text_fields.specs.Fields.{field_at};
ghost use Rattle.text_fields.specs.Numbers.{number};
ghost use Rattle.trace_reader.specs.Checks.{Answers, each, values};
ghost use Rattle.trace_reader.specs.Coflow.{back_checks, is_colon, location_part, megabytes_part, reducer_checks, reducer_of, reducers_of, without};
ghost use Rattle.trace_reader.specs.Parts.{CutsReducer};

use crate::fault::TraceFault;
use crate::range::number_in;
use coflow_units::{MAX_MEGABYTES, MAX_REDUCERS, Quantity, Reducer};
use std::alloc::Global;
use text_fields::{Decimal, Fields, decimal_of, number_of};

/// The reducers of a line, whose number is this field, and behind which there is no field.
pub(crate) fn back_of(
    alloc: Global,
    fields: &mut Fields<'_>,
    field: u32,
    ports: u32,
) -> Result<Vec<Reducer>, TraceFault>
    requires { field ≤ 4100 }
    ensures { Answers (back_checks ports field fields.old) (λ v. v.items ≡ reducers_of fields.old) result }
{
    let line = fields.line();
    let count = number_in(
        fields.next(),
        line,
        field,
        Quantity::Reducers,
        0,
        MAX_REDUCERS,
    )?;
    let reducers = reducers_in(alloc, fields, field + 1, ports, count)?;
    if fields.is_done() {
        Ok(reducers)
    } else {
        Err(TraceFault::BadLine {
            line,
            field: field + 1 + count,
        })
    }
}

/// So many reducers, the first of which is this field of the line.
fn reducers_in(
    alloc: Global,
    fields: &mut Fields<'_>,
    field: u32,
    ports: u32,
    count: u32,
) -> Result<Vec<Reducer>, TraceFault>
    requires place { field ≤ 4101 }
    requires few { count ≤ MAX_REDUCERS }
    ensures answer { Answers (each (reducer_checks ports fields.old.number) field fields.old.texts count)
        (λ v. v.items ≡ values reducer_of fields.old.texts count) result }
    ensures left { OnOk result (fields.new ≡ without count fields.old) }
{
    let line = fields.line();
    let mut reducers = Vec::new(alloc);
    for index in 0..count {
        let reducer = reducer_in(fields.next(), line, field + index, ports)?;
        reducers.push(reducer)?;
    }
    Ok(reducers)
}

/// The reducer that the text spells, which is this field of the line.
fn reducer_in(text: &[u8], line: u32, field: u32, ports: u32) -> Result<Reducer, TraceFault>
    ensures { Answers (reducer_checks ports line field text.now) (λ v. v ≡ reducer_of text.now) result }
{
    let Some((port, size)) = port_and_size(text) else {
        return Err(TraceFault::BadLine { line, field });
    };
    if port > u64::from(ports) {
        return Err(TraceFault::PortRange { line, port });
    }
    if size.millionths > MAX_MEGABYTES * 1_000_000 {
        return Err(TraceFault::Limit {
            line,
            which: Quantity::Megabytes,
            count: size.wholes,
        });
    }
    Ok(Reducer {
        location: port as u32,
        millionths: size.millionths,
    })
}

/// The location and the megabytes that a reducer's field spells.
fn port_and_size(field: &[u8]) -> Option<(u64, Decimal)>
    ensures { CutsReducer (λ v. v.0) (λ v. v.1.millionths) (λ v. v.1.wholes) field.now result }
{
    let (location, megabytes) = halves(field);
    let Some(port) = number_of(location) else {
        return None;
    };
    let Some(size) = decimal_of(megabytes) else {
        return None;
    };
    Some((port, size))
}

/// What stands before the first colon, and behind it.
fn halves(field: &[u8]) -> (&[u8], &[u8])
    ensures location { result.0.now ≡ location_part field.now }
    ensures megabytes { result.1.now ≡ megabytes_part field.now }
{
    match first_colon(field) {
        Some(colon) => (&field[..colon], &field[colon + 1..]),
        None => (field, &field[field.len()..]),
    }
}

fn first_colon(field: &[u8]) -> Option<usize>
    ensures { result ≡ position is_colon field.now }
{
    field.iter().position(|b| *b == b':')
}
