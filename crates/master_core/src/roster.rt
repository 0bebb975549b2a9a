//! Which coflows joined, and which of them are present.
ghost use Rattle.std.specs.Prelude.{◌≡◌, ℕ, ◌<◌, ◌≤◌, ◌++◌, true, false, [], ◌∷◌, All, IfOk, length, slice_set};
ghost use Rattle.coflow_units.specs.Flows.{IsDistinct};
ghost use Rattle.journal.specs.State.{has};
ghost use Rattle.master_core.specs.Attendance.{marked};

use coflow_units::NoMemory;
use std::alloc::Global;
use std::marker::Model;

/// The coflows that joined, in joining order, and for each coflow whether it is present: whether it joined and has not
/// left.
///
/// Contracts see a `Roster` as these two lists.
#[derive(Drop)]
pub struct Roster {
    joined: Vec<u32>,
    /// For each coflow whether it joined.
    seen: Vec<bool>,
    present: Vec<bool>,
}

impl Model for Roster {
    ghost use Rattle.std.specs.Prelude.{vec_capacity};
    ghost use Rattle.master_core.specs.Attendance.{Attendance, IsAttendance};

    ghost Value = { Attendance };

    ghost view = { λ s. record { joined = s.joined.items; present = s.present.items } };

    ghost invariant = { λ s. IsAttendance s.joined.items s.seen.items s.present.items (vec_capacity s.joined) };
}

impl Roster {
    /// Takes the room for coflows that count from 0 to `coflows`. None has joined. The error is want of memory.
    pub fn new(alloc: Global, coflows: u32) -> Result<Roster, NoMemory>
        ensures joined { IfOk result (λ r. r.joined ≡ []) }
        ensures present { IfOk result (λ r. (coflow : ℕ) → marked r.present coflow ≡ false) }
        ensures present_len { IfOk result (λ r. length r.present ≡ coflows) }
    {
        let joined = Vec::with_capacity(alloc, coflows as usize)?;
        let Ok(seen) = vec![in alloc; false; coflows as usize] else {
            drop(joined);
            return Err(NoMemory);
        };
        let Ok(present) = vec![in alloc; false; coflows as usize] else {
            drop(joined);
            drop(seen);
            return Err(NoMemory);
        };
        Ok(Roster {
            joined,
            seen,
            present,
        })
    }

    /// Whether the coflow joined, also where it has left since.
    pub fn has_joined(&self, coflow: u32) -> bool
        requires { coflow < length self.now.present }
        ensures { result ≡ has self.now.joined coflow }
    {
        self.seen[coflow as usize]
    }

    /// Whether the coflow joined and has not left.
    pub fn is_present(&self, coflow: u32) -> bool
        requires { coflow < length self.now.present }
        ensures { result ≡ marked self.now.present coflow }
    {
        self.present[coflow as usize]
    }

    /// A coflow that has not joined joins.
    pub fn join(&mut self, coflow: u32)
        requires coflow_in { coflow < length self.old.present }
        requires away { has self.old.joined coflow ≡ false }
        ensures joined { self.new.joined ≡ self.old.joined ++ coflow ∷ [] }
        ensures present { self.new.present ≡ slice_set self.old.present coflow true }
    {
        self.joined.push_reserved(coflow);
        self.seen[coflow as usize] = true;
        self.present[coflow as usize] = true;
    }

    /// The coflow is no longer present.
    pub fn leave(&mut self, coflow: u32)
        requires { coflow < length self.old.present }
        ensures joined { self.new.joined ≡ self.old.joined }
        ensures present { self.new.present ≡ slice_set self.old.present coflow false }
    {
        self.present[coflow as usize] = false;
    }

    /// The coflows that joined, in joining order; each stands once.
    pub fn joined(&self) -> &[u32]
        ensures joined { result.now ≡ self.now.joined }
        ensures once { IsDistinct self.now.joined }
        ensures coflow { All (λ c. c < length self.now.present) self.now.joined }
        ensures few { length self.now.joined ≤ length self.now.present }
        ensures there { (coflow : ℕ) → marked self.now.present coflow ≡ true → has self.now.joined coflow ≡ true }
    {
        &self.joined
    }

    /// For each coflow whether it is present.
    pub fn present(&self) -> &[bool]
        ensures { result.now ≡ self.now.present }
    {
        &self.present
    }
}
