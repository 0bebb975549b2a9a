//! One line of a text of an order.
ghost use Rattle.std.specs.Prelude.{◌≡◌, ◌≤◌, ◌^◌, ℕ, List, drop};
ghost use Rattle.coflow_units.specs.Grants.{place_in};
ghost use Rattle.orders.specs.Checks.{Answers, id_checks, id_of, line_checks};
ghost use Rattle.text_fields.specs.Numbers.{number};

use crate::coflows::Coflows;
use crate::fault::OrderFault;
use indexmap::IndexSet;
use text_fields::{Fields, number_of};

/// The id of a line and the number of its coflow, where earlier lines have the earlier ids.
pub(crate) fn line_of(
    fields: &mut Fields<'_>,
    coflows: &Coflows<'_>,
    earlier: &IndexSet<u32>,
) -> Result<(u32, u32), OrderFault>
    ensures { Answers (line_checks coflows.now earlier.now.keys fields.old)
        (λ v. (v.0 ≡ id_of fields.old) × (v.1 ≡ place_in coflows.now (id_of fields.old))) result }
{
    let line = fields.line();
    let named = coflow_of(fields.next(), line, coflows, earlier)?;
    if fields.is_done() {
        Ok(named)
    } else {
        Err(OrderFault::BadLine { line, field: 2 })
    }
}

/// The id that the field spells and the number of its coflow, where earlier lines have the earlier ids.
fn coflow_of(
    field: &[u8],
    line: u32,
    coflows: &Coflows<'_>,
    earlier: &IndexSet<u32>,
) -> Result<(u32, u32), OrderFault>
    ensures { Answers (id_checks coflows.now earlier.now.keys line field.now)
        (λ v. (v.0 ≡ number field.now) × (v.1 ≡ place_in coflows.now (number field.now))) result }
{
    let Some(id) = number_of(field) else {
        return Err(OrderFault::BadLine { line, field: 1 });
    };
    let Some(coflow) = coflows.number(id) else {
        return Err(OrderFault::UnknownId { line, id });
    };
    let short = id as u32;
    if earlier.contains(&short) {
        Err(OrderFault::DuplicateId { line, id: short })
    } else {
        Ok((short, coflow))
    }
}
