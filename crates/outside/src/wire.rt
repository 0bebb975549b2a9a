//! Wires: where the units of a port are sent.
ghost use Rattle.std.specs.Prelude.{ℕ, ◌<◌, ◌≤◌, List, Option};
ghost use Rattle.outside.specs.Rose.{Rose};
ghost use Rattle.outside.specs.Wire.{Accepts};

/// What takes the units that a port sends.
pub trait Wire {
    /// The count of faults.
    ghost faults: { Self → ℕ };

    /// The runs accepted so far, where they are told: the first slot, the flow, and the number of units.
    ghost runs: { Self → Option (List (ℕ × ℕ × ℕ)) };

    /// Sends units of a flow, one in each of `length` slots from `slot` on, and answers how many were accepted, from
    /// the front.
    ///
    /// Fewer than `length` are accepted only where the count of faults rose.
    fn send(&mut self, slot: u64, flow: u32, length: u64) -> u64
        requires { 1 ≤ length }
        ensures later { faults self.old ≤ faults self.new }
        ensures bound { result ≤ length }
        ensures cause { result < length → Rose (faults self.old) (faults self.new) }
        ensures runs { Accepts (runs self.old) (runs self.new) slot flow result };
}
