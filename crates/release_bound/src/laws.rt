//! Laws of released certificates. Each says something of every set of flows, arrivals, certificate and schedule.
ghost use Rattle.std.specs.Prelude.{◌≡◌, ℕ, ◌+◌, ◌*◌, ◌<◌, ◌≤◌, List, All, Contains, sum_by};
ghost use Rattle.coflow_units.specs.declared.fabric.Flow.{Flow};
ghost use Rattle.coflow_units.specs.declared.fabric.Port.{Port};
ghost use Rattle.coflow_units.specs.Flows.{Instance, IsDistinct};
ghost use Rattle.coflow_units.specs.Load.{load, load_of_all};
ghost use Rattle.coflow_units.specs.Completion.{completion, cost};
ghost use Rattle.coflow_units.specs.Certificate.{budget, front, scale};
ghost use Rattle.release_bound.specs.declared.place.ReleasePlace.{ReleasePlace};
ghost use Rattle.release_bound.specs.Release.{IsReleased, IsReleasedCertificate, IsReleasedFeasible, earliest_end};
ghost use Rattle.release_bound.specs.Release.{entries_of, front_value, released_total, released_value};
ghost use Rattle.release_bound.specs.Best.{IsBestReleased, arrivals_cost};
ghost use Rattle.release_bound.specs.ReleaseOrder.{IsReleasedBy, IsReleasedOrdering};
ghost use Rattle.release_bound.specs.declared.threshold.Threshold.{Threshold};
ghost use Rattle.release_bound.specs.declared.threshold.Threshold.TheVariants.{Zero};
ghost use Rattle.release_bound.specs.Rows.{both_are_late, long_after_short, long_and_short, long_and_short_alike, one_part_more, short_is_late};

/// The parallel inequality with arrivals: where nobody is served before its arrival, twice the sum of load times
/// completion is at least the square of the set's load, the squares of the coflows' loads, and twice the set's load
/// times the first arrival of those that have load there.
pub fn late_parallel()
    ensures { (flows : List Flow) (arrival : ℕ → ℕ) (slots : List (List ℕ)) (port : Port) (coflows : List ℕ) →
        IsReleased flows arrival slots → IsDistinct coflows →
        front_value flows arrival coflows port ≤
        2 * sum_by (λ c. load flows c port * completion flows slots c) coflows }
{}

/// Where nobody is served before its arrival, no coflow ends before its arrival and its greatest load on a port.
pub fn late_completion()
    ensures { (flows : List Flow) (arrival : ℕ → ℕ) (slots : List (List ℕ)) (ports c : ℕ) →
        IsReleased flows arrival slots → earliest_end flows arrival ports c ≤ completion flows slots c }
{}

/// Weak duality with arrivals: no schedule that serves nobody before its arrival costs less than the total of a
/// feasible released certificate.
pub fn released_is_bound()
    ensures value { (i : Instance) (arrival : ℕ → ℕ) (places : List ReleasePlace) (slots : List (List ℕ)) →
        IsReleasedCertificate i places → IsReleasedFeasible i.flows i.weight places → IsReleased i.flows arrival slots →
        released_value i.flows arrival i.ports places ≤ 2 * scale * cost i.flows i.weight i.coflows slots }
    ensures total { (i : Instance) (arrival : ℕ → ℕ) (places : List ReleasePlace) (slots : List (List ℕ)) →
        IsReleasedCertificate i places → IsReleasedFeasible i.flows i.weight places → IsReleased i.flows arrival slots →
        released_total i.flows arrival i.ports places ≤ cost i.flows i.weight i.coflows slots }
{}

/// Where no port has more load than k and no coflow arrives later than m, the value of a feasible released certificate
/// is at most 2 * (k + m) times the sum of the budgets. With loads up to 2^40, arrivals up to 2^32 and 4096 weights up
/// to 2^32, that is below 2^126.
pub fn released_values_fit()
    ensures { (i : Instance) (arrival : ℕ → ℕ) (places : List ReleasePlace) (k m : ℕ) → IsReleasedCertificate i places →
        IsReleasedFeasible i.flows i.weight places →
        ((port : Port) → port.number < i.ports → load_of_all i.flows (front (entries_of places)) port ≤ k) →
        ((c : ℕ) → Contains (front (entries_of places)) c → arrival c ≤ m) →
        released_value i.flows arrival i.ports places ≤
        2 * ((k + m) * sum_by (budget i.weight) (front (entries_of places))) }
{}

/// Of a coflow of 6 units and one of 1 unit that arrives at time 2, each schedule costs at least 10.
/// Were the arrival not known, the same certificate would show 8. Where the long one arrives at time 3, it shows 12.
pub fn late_row_has_total()
    ensures known { released_total long_and_short short_is_late 3 long_after_short ≡ 10 }
    ensures unknown { released_total long_and_short (λ c. 0) 3 long_after_short ≡ 8 }
    ensures both { released_total long_and_short both_are_late 3 long_after_short ≡ 12 }
{}

/// That certificate is feasible where both have weight 1, and leaves nothing over: with one part more it is not. So
/// each schedule costs at least 10.
pub fn late_row_is_feasible()
    ensures certificate { IsReleasedCertificate long_and_short_alike long_after_short }
    ensures feasible { IsReleasedFeasible long_and_short long_and_short_alike.weight long_after_short }
    ensures no_more { IsReleasedFeasible long_and_short long_and_short_alike.weight one_part_more → ⊥ }
    ensures cost { (slots : List (List ℕ)) → IsReleased long_and_short short_is_late slots →
        10 ≤ cost long_and_short long_and_short_alike.weight long_and_short_alike.coflows slots }
{}

/// The released certificate by each threshold is feasible: no coflow pays more than its budget. So each total is at
/// most the cost of every schedule that serves nobody before its arrival.
pub fn released_ordering_is_feasible()
    ensures feasible { (by : Threshold) (i : Instance) (arrival : ℕ → ℕ) (places : List ReleasePlace) →
        IsReleasedBy by i arrival places → IsReleasedFeasible i.flows i.weight places }
    ensures total { (by : Threshold) (i : Instance) (arrival : ℕ → ℕ) (places : List ReleasePlace)
        (slots : List (List ℕ)) → IsReleasedBy by i arrival places → IsReleased i.flows arrival slots →
        released_total i.flows arrival i.ports places ≤ cost i.flows i.weight i.coflows slots }
{}

/// Where every arrival is late, each coflow pays with its whole budget for its earliest end, and nothing for load.
pub fn zero_is_trivial()
    ensures y { (i : Instance) (arrival : ℕ → ℕ) (places : List ReleasePlace) → IsReleasedBy Zero i arrival places →
        All (λ (r : ReleasePlace). r.y ≡ 0) places }
    ensures z { (i : Instance) (arrival : ℕ → ℕ) (places : List ReleasePlace) → IsReleasedBy Zero i arrival places →
        All (λ (r : ReleasePlace). r.z ≡ budget i.weight r.coflow) places }
{}

/// There is one certificate by a threshold at most.
pub fn released_ordering_is_one()
    ensures { (by : Threshold) (i : Instance) (arrival : ℕ → ℕ) (a b : List ReleasePlace) →
        IsReleasedBy by i arrival a → IsReleasedBy by i arrival b → a ≡ b }
{}

/// The greatest total of the released certificates is at most the cost of every schedule that serves nobody before its
/// arrival. It is at least the total that an online run prints.
pub fn best_is_bound()
    ensures bound { (i : Instance) (arrival : ℕ → ℕ) (places : List ReleasePlace) (total : ℕ)
        (slots : List (List ℕ)) → IsBestReleased i arrival places total → IsReleased i.flows arrival slots →
        total ≤ cost i.flows i.weight i.coflows slots }
    ensures online { (i : Instance) (arrival : ℕ → ℕ) (places printed : List ReleasePlace) (total : ℕ) →
        IsBestReleased i arrival places total → IsReleasedOrdering i arrival printed →
        released_total i.flows arrival i.ports printed ≤ total }
{
    released_ordering_is_feasible();
    released_ordering_is_one();
}

/// What arrivals cost is at most the greatest total. So with it taken off both, the cost of a schedule over that total
/// tells how far from the best it can be.
pub fn arrivals_are_below()
    ensures { (i : Instance) (arrival : ℕ → ℕ) (places : List ReleasePlace) (total : ℕ) → IsDistinct i.coflows →
        IsBestReleased i arrival places total → arrivals_cost i arrival ≤ total }
{
    zero_is_trivial();
}
