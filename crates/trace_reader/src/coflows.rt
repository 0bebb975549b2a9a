//! The lines of coflows.
ghost use Rattle.std.specs.Prelude.{◌≡◌, ◌≤◌, ◌<◌, ◌^◌, ◌+◌, ◌-◌, ◌++◌, [], ◌∷◌, ℕ, List, OnOk, length, map};
ghost use Rattle.text_fields.specs.Lines.{Line};
ghost use Rattle.trace_reader.specs.Checks.{Answers};
ghost use Rattle.trace_reader.specs.Coflow.{coflow_of as coflow_of_line, id_of, line_checks};
ghost use Rattle.trace_reader.specs.Trace.{coflow_checks};

use crate::back::back_of;
use crate::fault::TraceFault;
use crate::front::front_of;
use coflow_units::{CoflowLine, Items};
use indexmap::IndexSet;
use std::alloc::Global;
use text_fields::{Fields, Lines};

/// The coflows of all lines that are left, where the header has so many ports and coflows.
pub(crate) fn coflows_of(
    alloc: Global,
    lines: &mut Lines<'_>,
    ports: u32,
    count: u32,
) -> Result<Vec<CoflowLine>, TraceFault>
    ensures { Answers (coflow_checks ports count [] lines.old) (λ v. v.items ≡ map coflow_of_line lines.old) result }
{
    let mut coflows = Vec::new(alloc);
    let mut ids = IndexSet::<u32>::new(alloc);
    while let Some(mut fields) = lines.next() {
        if coflows.len() >= count as usize {
            return Err(TraceFault::Extra {
                line: fields.line(),
            });
        }
        let coflow = coflow_of(alloc, &mut fields, ports, &mut ids)?;
        coflows.push(coflow)?;
    }
    Ok(coflows)
}

/// The coflow of a line, where the lines before it have the ids. The line's id goes to them.
fn coflow_of(
    alloc: Global,
    fields: &mut Fields<'_>,
    ports: u32,
    ids: &mut IndexSet<u32>,
) -> Result<CoflowLine, TraceFault>
    ensures answer { Answers (line_checks ports ids.old.keys fields.old) (λ v. v ≡ coflow_of_line fields.old) result }
    ensures ids { OnOk result (ids.new.keys ≡ ids.old.keys ++ (id_of fields.old ∷ [])) }
{
    let front = front_of(alloc, fields, ports, ids)?;
    let field = 4 + front.mappers.len() as u32;
    let reducers = back_of(alloc, fields, field, ports)?;
    Ok(CoflowLine {
        id: front.id,
        arrival: front.arrival,
        mappers: Items::from_vec(front.mappers),
        reducers: Items::from_vec(reducers),
    })
}
