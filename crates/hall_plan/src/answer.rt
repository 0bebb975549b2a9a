//! What a plan that a hall served comes to.
use coflow_units::{Items, NoMemory, Place};
use schedule_model::Schedule;

/// A plan: the places of its order, from place 1 on, and the schedule that served it.
#[derive(Drop)]
pub struct HallPlan {
    pub places: Items<Place>,
    pub schedule: Schedule,
}

/// Why there is no plan.
#[derive(Clone, Copy, Debug, PartialEq, Eq)]
pub enum PlanFault {
    /// The wire of this ingress port accepted fewer units than it was sent. No further run was opened.
    WireFault { port: u32 },
    /// No memory was to be had.
    NoMemory,
}

impl From<NoMemory> for PlanFault {
    ghost use Rattle.std.specs.Prelude.{◌≡◌};
    ghost use Rattle.hall_plan.specs.declared.answer.PlanFault.TheVariants.{NoMemory};

    ghost from_gives = { λ _ e. e ≡ NoMemory };

    fn from(_error: NoMemory) -> PlanFault {
        PlanFault::NoMemory
    }
}
