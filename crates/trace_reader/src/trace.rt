//! The text of a trace.
ghost use Rattle.std.specs.Prelude.{◌≡◌, ◌≤◌, ◌<◌, ◌^◌, ◌+◌, ◌-◌, ℕ, List, IfOk, length};
ghost use Rattle.coflow_units.specs.declared.limits.TheConstants.{MAX_TEXT};
ghost use Rattle.coflow_units.specs.Trace.{IsTrace};
ghost use Rattle.trace_reader.specs.Checks.{Answers};
ghost use Rattle.trace_reader.specs.Trace.{trace_checks, trace_of};

use crate::coflows::coflows_of;
use crate::fault::TraceFault;
use crate::header::header_of;
use coflow_units::{Items, Trace};
use std::alloc::Global;
use text_fields::Lines;

/// Reads a trace of the coflow-benchmark format from a text of at most 2^26 bytes.
///
/// Fields are cut by tabs, carriage returns and spaces. Lines without fields are skipped. The header, the first line
/// with fields, is `N K`: the number of ports, 1 to 1024, and the number of coflows, at most 4096. Then come K lines of
/// an id, an arrival in milliseconds, the number of mappers, 1 to 4096, their locations, the number of reducers, at
/// most 4096, and for each a field `LOCATION:MEGABYTES`. Numbers are decimal and may have leading zeros. Ids and
/// arrivals are below 2^32 and ids differ. Locations are from 0 to N. Megabytes may have a point and digits behind it.
/// They are at most 2^40, and are kept in millionths, rounded up.
///
/// A text that is not so is refused, with the first fault in reading order. First the header: its form (`BadHeader`),
/// the range of its ports and that of its coflows (`Limit`). Then each line in turn: that it is none too many
/// (`Extra`), and its fields from left to right, each with its form (`BadLine`) and then its range (`Limit`, or
/// `PortRange` of a location), and for the id that no earlier line has it (`DuplicateId`). The field of a reducer has
/// its form first, as a whole, then the range of its location, and then that of its megabytes. A field too many is a
/// `BadLine` at that field. At the end `Missing` comes where there are fewer than K lines. `NoMemory` may come in place
/// of any answer.
pub fn read_trace(alloc: Global, bytes: &[u8]) -> Result<Trace, TraceFault>
    requires { length bytes.now ≤ MAX_TEXT }
    ensures answer { Answers (trace_checks bytes.now) (λ t. t ≡ trace_of bytes.now) result }
    ensures limits { IfOk result IsTrace }
{
    let mut lines = Lines::new(bytes);
    let Some(mut header) = lines.next() else {
        return Err(TraceFault::BadHeader);
    };
    let (number, want) = header_of(&mut header)?;
    let coflows = coflows_of(alloc, &mut lines, number, want)?;
    let have = coflows.len() as u32;
    if have < want {
        return Err(TraceFault::Missing { have, want });
    }
    Ok(Trace {
        number,
        coflows: Items::from_vec(coflows),
    })
}
