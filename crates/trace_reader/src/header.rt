//! The first line with fields.
ghost use Rattle.std.specs.Prelude.{◌≡◌, ◌≤◌, ◌^◌, ◌-◌, ◌==◌, ℕ, List};
ghost use Rattle.text_fields.specs.Fields.{field_at};
ghost use Rattle.trace_reader.specs.Checks.{Answers};
ghost use Rattle.trace_reader.specs.Header.{HasTwo, coflow_count, header_checks, ports_of};

use crate::fault::TraceFault;
use crate::range::in_range;
use coflow_units::{MAX_COFLOWS, MAX_PORTS, Quantity};
use text_fields::{Fields, number_of};

/// The number of ports and the number of coflows that the header names.
pub(crate) fn header_of(fields: &mut Fields<'_>) -> Result<(u32, u32), TraceFault>
    ensures { Answers (header_checks fields.old) (λ v. (v.0 ≡ ports_of fields.old) × (v.1 ≡ coflow_count fields.old))
        result }
{
    let line = fields.line();
    let Some((ports, coflows)) = two_numbers(fields) else {
        return Err(TraceFault::BadHeader);
    };
    let ports = in_range(ports, line, Quantity::Ports, 1, MAX_PORTS)?;
    let coflows = in_range(coflows, line, Quantity::Coflows, 0, MAX_COFLOWS)?;
    Ok((ports, coflows))
}

/// The two numbers of a line that has just two fields.
fn two_numbers(fields: &mut Fields<'_>) -> Option<(u64, u64)>
    ensures { HasTwo fields.old result }
{
    let Some(first) = number_of(fields.next()) else {
        return None;
    };
    let Some(second) = number_of(fields.next()) else {
        return None;
    };
    if fields.is_done() {
        Some((first, second))
    } else {
        None
    }
}
