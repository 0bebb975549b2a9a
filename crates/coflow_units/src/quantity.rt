//! The quantities of an input that have a limit.

/// A counted quantity that a refusal names.
#[derive(Clone, Copy, Debug, PartialEq, Eq)]
pub enum Quantity {
    /// The bytes of a file.
    Text,
    /// The number of ports in the first line of a trace.
    Ports,
    /// The number of coflows in the first line of a trace.
    Coflows,
    /// The id of a coflow.
    Id,
    /// The arrival of a coflow, in milliseconds.
    Arrival,
    /// The mappers of a coflow, as many as its line names.
    Mappers,
    /// The reducers of a coflow.
    Reducers,
    /// The size of a reducer in whole megabytes, rounded up.
    Megabytes,
    /// The weight of a coflow.
    Weight,
    /// The units of all flows.
    Units,
    /// The flows of an instance.
    Flows,
    /// The number of a client of a script.
    Clients,
    /// The commands of a script.
    Commands,
    /// The publishings of an online run.
    Epochs,
}
