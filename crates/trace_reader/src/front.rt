//! The line of a coflow up to its last mapper.
ghost use Rattle.std.specs.Prelude.{◌≡◌, ◌≤◌, ◌<◌, ◌^◌, ◌+◌, ◌-◌, ◌++◌, [], ◌∷◌, ℕ, List, IfOk, OnOk, length, drop};
ghost use Rattle.coflow_units.specs.declared.limits.TheConstants.{MAX_MAPPERS};
ghost use Rattle.text_fields.specs.Fields.{field_at};
ghost use Rattle.text_fields.specs.Numbers.{number};
ghost use Rattle.trace_reader.specs.Checks.{Answers, each, values};
ghost use Rattle.trace_reader.specs.Coflow.{behind_mappers, front_checks, id_checks, id_of, mapper_checks, without};
ghost use Rattle.trace_reader.specs.Parts.{IsFront};

use crate::fault::TraceFault;
use crate::range::number_in;
use coflow_units::{MAX_ARRIVAL, MAX_ID, MAX_MAPPERS, Quantity};
use indexmap::IndexSet;
use std::alloc::Global;
use text_fields::{Fields, number_of};

/// The id, the arrival and the mappers of a coflow.
#[derive(Drop)]
pub(crate) struct Front {
    pub id: u32,
    pub arrival: u32,
    pub mappers: Vec<u32>,
}

/// Reads a line up to its last mapper, where the lines before it have the ids. The line's id goes to them.
pub(crate) fn front_of(
    alloc: Global,
    fields: &mut Fields<'_>,
    ports: u32,
    ids: &mut IndexSet<u32>,
) -> Result<Front, TraceFault>
    ensures answer { Answers (front_checks ports ids.old.keys fields.old)
        (IsFront (λ v. v.id) (λ v. v.arrival) (λ v. v.mappers.items) fields.old) result }
    ensures few { IfOk result (λ v. length v.mappers.items ≤ MAX_MAPPERS) }
    ensures left { OnOk result (fields.new ≡ behind_mappers fields.old) }
    ensures ids { OnOk result (ids.new.keys ≡ ids.old.keys ++ (id_of fields.old ∷ [])) }
{
    let line = fields.line();
    let id = id_in(fields.next(), line, ids)?;
    let arrival = number_in(fields.next(), line, 2, Quantity::Arrival, 0, MAX_ARRIVAL)?;
    let count = number_in(fields.next(), line, 3, Quantity::Mappers, 1, MAX_MAPPERS)?;
    let mappers = mappers_in(alloc, fields, ports, count)?;
    Ok(Front {
        id,
        arrival,
        mappers,
    })
}

/// The id that the field spells, where no earlier line has it. It goes to the ids.
fn id_in(field: &[u8], line: u32, ids: &mut IndexSet<u32>) -> Result<u32, TraceFault>
    ensures answer { Answers (id_checks ids.old.keys line field.now) (λ v. v ≡ number field.now) result }
    ensures ids { OnOk result (ids.new.keys ≡ ids.old.keys ++ (number field.now ∷ [])) }
{
    let id = number_in(field, line, 1, Quantity::Id, 0, MAX_ID)?;
    let (_index, added) = ids.insert_full(id)?;
    if added {
        Ok(id)
    } else {
        Err(TraceFault::DuplicateId { line, id })
    }
}

/// The location of the mapper that the text spells, which is this field of the line.
fn mapper_in(text: &[u8], line: u32, field: u32, ports: u32) -> Result<u32, TraceFault>
    ensures { Answers (mapper_checks ports line field text.now) (λ v. v ≡ number text.now) result }
{
    let Some(port) = number_of(text) else {
        return Err(TraceFault::BadLine { line, field });
    };
    if port > u64::from(ports) {
        return Err(TraceFault::PortRange { line, port });
    }
    Ok(port as u32)
}

/// The locations of so many mappers, the first of which is field 4 of the line.
fn mappers_in(
    alloc: Global,
    fields: &mut Fields<'_>,
    ports: u32,
    count: u32,
) -> Result<Vec<u32>, TraceFault>
    requires { count ≤ MAX_MAPPERS }
    ensures answer { Answers (each (mapper_checks ports fields.old.number) 4 fields.old.texts count)
        (λ v. v.items ≡ values number fields.old.texts count) result }
    ensures left { OnOk result (fields.new ≡ without count fields.old) }
{
    let line = fields.line();
    let mut mappers = Vec::new(alloc);
    for index in 0..count {
        let mapper = mapper_in(fields.next(), line, 4 + index, ports)?;
        mappers.push(mapper)?;
    }
    Ok(mappers)
}
