//! Coflows on a fabric of ports: the values that all crates speak of, the limits of an input, and the definitions and
//! laws that contracts cite.
#![tactic(auto)]

mod fabric;
mod items;
pub mod laws;
mod limits;
mod memory;
mod plain;
mod plan;
mod port_word;
mod quantity;
mod trace;
mod unit_size;

pub use fabric::{Flow, Port, Side};
pub use items::Items;
pub use limits::{
    MAX_ARRIVAL, MAX_CLIENTS, MAX_COFLOWS, MAX_COMMANDS, MAX_FLOWS, MAX_ID, MAX_LIVE_UNITS,
    MAX_MAPPERS, MAX_MEGABYTES, MAX_OPTION_SLOTS, MAX_PORTS, MAX_PUBLISHINGS, MAX_REDUCERS,
    MAX_REPORT, MAX_SLOT, MAX_SLOT_MS, MAX_TEXT, MAX_UNIT, MAX_UNITS, MAX_WEIGHT, SCALE,
};
pub use memory::NoMemory;
pub use plain::load_of;
pub use plan::{Place, Run};
pub use port_word::{PortWord, PostStage};
pub use quantity::Quantity;
pub use trace::{CoflowLine, Reducer, Trace};
pub use unit_size::UnitSize;
