//! The order of the coflows of a table.
ghost use Rattle.std.specs.Prelude.{◌≡◌, ◌≤◌, ◌^◌, ℕ, List, length, map};
ghost use Rattle.coflow_units.specs.declared.limits.TheConstants.{MAX_TEXT};
ghost use Rattle.orders.specs.Checks.{Answers};
ghost use Rattle.orders.specs.Orders.{order_in, text_checks};

use crate::coflows::Coflows;
use crate::fault::OrderFault;
use crate::lines::numbers_in_lines;
use coflow_units::Items;
use flow_table::Table;
use std::alloc::Global;

/// Reads an order of the coflows of a table from a text of at most 2^26 bytes: the numbers of its coflows, first served
/// first. Each line with fields has one, the id of a coflow, and each coflow stands in one line.
///
/// A text that is not so is refused, with the first fault in reading order. Lines are read one after another. In a line
/// these are looked at in turn: the form of field 1 (`BadLine`), that a coflow has this id (`UnknownId`), that no
/// earlier line has it (`DuplicateId`), and that there is no second field (`BadLine`). At the end it is looked at that
/// no coflow is missing (`Missing`). `NoMemory` may come in place of any answer.
pub fn read_order(alloc: Global, bytes: &[u8], table: &Table) -> Result<Items<u32>, OrderFault>
    requires { length bytes.now ≤ MAX_TEXT }
    ensures { Answers (text_checks bytes.now table.now.ids) (λ order. order ≡ order_in bytes.now table.now.ids) result }
{
    let coflows = Coflows::of(alloc, table)?;
    let order = numbers_in_lines(alloc, bytes, &coflows)?;
    let want = table.coflows();
    let have = order.len() as u32;
    if have == want {
        Ok(Items::from_vec(order))
    } else {
        Err(OrderFault::Missing { have, want })
    }
}
