//! Gates: what clients pass before each command.

/// A gate that a client passes before each of its commands. Where it holds a client back, others may go first.
pub trait Gate {
    /// The client is about to carry out the command of this line of its script.
    fn pass(&mut self, line: u32);
}

/// A gate that holds nobody back.
#[derive(Clone, Copy, Debug, PartialEq, Eq)]
pub struct OpenGate;

impl Gate for OpenGate {
    fn pass(&mut self, _line: u32) {}
}
