//! One line of a text of weights.
ghost use Rattle.std.specs.Prelude.{◌≡◌, ◌≤◌, ◌<◌, ◌^◌, ◌-◌, ◌==◌, ℕ, List, drop};
ghost use Rattle.indexmap.specs.IndexMap.{keys};
ghost use Rattle.text_fields.specs.Fields.{field_at};
ghost use Rattle.text_fields.specs.Numbers.{AreIds, number};
ghost use Rattle.weights.specs.Checks.{Answers, id_checks, id_of, line_checks, weight_checks, weight_in};

use crate::fault::WeightsFault;
use coflow_units::{MAX_ID, MAX_WEIGHT, Quantity};
use indexmap::{IndexMap, IndexSet};
use text_fields::{Fields, number_of};

/// The id and the weight of a line, where the trace has the known ids and earlier lines have given weights.
pub(crate) fn line_of(
    fields: &mut Fields<'_>,
    known: &IndexSet<u32>,
    given: &IndexMap<u32, u64>,
) -> Result<(u32, u64), WeightsFault>
    requires { AreIds known.now.keys }
    ensures { Answers (line_checks known.now.keys (keys given.now) fields.old)
        (λ v. (v.0 ≡ id_of fields.old) × (v.1 ≡ weight_in fields.old)) result }
{
    let line = fields.line();
    let id = known_id(fields.next(), line, known)?;
    if given.contains_key(&id) {
        return Err(WeightsFault::DuplicateId { line, id });
    }
    let weight = weight_within(fields.next(), line)?;
    if fields.is_done() {
        Ok((id, weight))
    } else {
        Err(WeightsFault::BadLine { line, field: 3 })
    }
}

/// The id that the field spells, where it is a known one.
fn known_id(field: &[u8], line: u32, known: &IndexSet<u32>) -> Result<u32, WeightsFault>
    requires { AreIds known.now.keys }
    ensures { Answers (id_checks known.now.keys line field.now) (λ v. v ≡ number field.now) result }
{
    let Some(id) = number_of(field) else {
        return Err(WeightsFault::BadLine { line, field: 1 });
    };
    if id > u64::from(MAX_ID) {
        return Err(WeightsFault::UnknownId { line, id });
    }
    let short = id as u32;
    if known.contains(&short) {
        Ok(short)
    } else {
        Err(WeightsFault::UnknownId { line, id })
    }
}

/// The weight that the field spells, where it is from 1 to the greatest one.
fn weight_within(field: &[u8], line: u32) -> Result<u64, WeightsFault>
    ensures { Answers (weight_checks line field.now) (λ v. v ≡ number field.now) result }
{
    let Some(count) = number_of(field) else {
        return Err(WeightsFault::BadLine { line, field: 2 });
    };
    if count < 1 || count > MAX_WEIGHT {
        return Err(WeightsFault::Limit {
            line,
            which: Quantity::Weight,
            count,
        });
    }
    Ok(count)
}
