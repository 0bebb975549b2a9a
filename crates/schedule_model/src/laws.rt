//! Laws of valid and of patient schedules.
ghost use Rattle.std.specs.Prelude.{ℕ, ◌+◌, ◌*◌, ◌<◌, ◌≤◌, List, Contains, length, sum_by};
ghost use Rattle.coflow_units.specs.declared.fabric.Flow.{Flow};
ghost use Rattle.coflow_units.specs.declared.fabric.Port.{Port};
ghost use Rattle.coflow_units.specs.Flows.{IsDistinct, coflow_of, units_of};
ghost use Rattle.coflow_units.specs.Load.{load, load_of_all, squares_of_loads};
ghost use Rattle.coflow_units.specs.Schedule.{IsValid};
ghost use Rattle.coflow_units.specs.Completion.{completion, end_of};
ghost use Rattle.coflow_units.specs.Patient.{IsPatient, egress_port, ingress_port, up_to};

/// The parallel inequality: in every valid schedule, for a port and a set of coflows, twice the sum of load times
/// completion is at least the square of the set's load and the squares of the coflows' loads together.
///
/// Source: Queyranne, "Structure of a simple scheduling polyhedron", Mathematical Programming 1993; for concurrent open
/// shop Mastrolilli, Queyranne, Schulz, Svensson and Uhan, "Minimizing the sum of weighted completion times in a
/// concurrent open shop", Operations Research Letters 2010.
pub fn parallel()
    ensures { (flows : List Flow) (slots : List (List ℕ)) (port : Port) (coflows : List ℕ) → IsValid flows slots →
        IsDistinct coflows →
        load_of_all flows coflows port * load_of_all flows coflows port + squares_of_loads flows coflows port ≤
        2 * sum_by (λ c. load flows c port * completion flows slots c) coflows }
{}

/// In a valid schedule that is patient for an order, the end of a flow and its units are together at most the loads of
/// its two ports over the coflows up to its own. So a coflow completes within twice the greatest port load of the
/// coflows up to it.
///
/// Source: the argument for order-preserving schedules of Agarwal, Rajakrishnan, Narayan, Agarwal, Shmoys and Vahdat,
/// "Sincronia: near-optimal network design for coflows", SIGCOMM 2018.
pub fn patient_is_short()
    ensures flow { (flows : List Flow) (order : List ℕ) (slots : List (List ℕ)) (f : ℕ) → IsValid flows slots →
        IsPatient flows order slots → f < length flows → Contains order (coflow_of flows f) →
        end_of slots f + units_of flows f ≤ load_of_all flows (up_to order (coflow_of flows f)) (ingress_port flows f) +
        load_of_all flows (up_to order (coflow_of flows f)) (egress_port flows f) }
    ensures coflow { (flows : List Flow) (order : List ℕ) (slots : List (List ℕ)) (c k : ℕ) → IsValid flows slots →
        IsPatient flows order slots → Contains order c →
        ((port : Port) → load_of_all flows (up_to order c) port ≤ k) → completion flows slots c ≤ 2 * k }
{}
