//! What a master begins with.
use coflow_units::Items;
use flow_table::Table;

/// What a master begins with, and what no command changes: the table of flows, the opening weight of each coflow, and
/// up to how many entries the journal may grow; `Short` and `Close` may go past it by the number of ports and one.
#[derive(Drop)]
pub struct Opening {
    pub table: Table,
    pub weights: Items<u64>,
    pub limit: u32,
}
