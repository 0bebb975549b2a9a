//! All lines of a text of an order.
ghost use Rattle.std.specs.Prelude.{◌≡◌, ◌≤◌, ◌^◌, ℕ, List, [], ◌∷◌, length, map};
ghost use Rattle.coflow_units.specs.declared.limits.TheConstants.{MAX_TEXT};
ghost use Rattle.orders.specs.Checks.{Answers, lines_checks};
ghost use Rattle.orders.specs.Orders.{order_in};
ghost use Rattle.text_fields.specs.Lines.{lines_of};

use crate::coflows::Coflows;
use crate::fault::OrderFault;
use crate::line::line_of;
use indexmap::IndexSet;
use std::alloc::Global;
use text_fields::Lines;

/// The numbers of the coflows of the lines, first line first.
pub(crate) fn numbers_in_lines(
    alloc: Global,
    bytes: &[u8],
    coflows: &Coflows<'_>,
) -> Result<Vec<u32>, OrderFault>
    requires { length bytes.now ≤ MAX_TEXT }
    ensures { Answers (lines_checks coflows.now [] (lines_of bytes.now))
        (λ order. order.items ≡ order_in bytes.now coflows.now) result }
{
    let mut lines = Lines::new(bytes);
    let mut earlier = IndexSet::<u32>::new(alloc);
    let mut order = Vec::new(alloc);
    while let Some(mut fields) = lines.next() {
        let (id, coflow) = line_of(&mut fields, coflows, &earlier)?;
        earlier.insert(id)?;
        order.push(coflow)?;
    }
    Ok(order)
}
