//! Laws of the definitions. Each says something of every set of flows, order and schedule.
ghost use Rattle.std.specs.Prelude.{◌≡◌, ◌≢◌, ℕ, ◌+◌, ◌<◌, ◌≤◌, ◌++◌, List, Contains, length, replicate};
ghost use Rattle.std.specs.List.Sorted.{IsStrictlyIncreasing};
ghost use Rattle.coflow_units.specs.declared.fabric.Flow.{Flow};
ghost use Rattle.coflow_units.specs.Flows.{Instance, IsInstance, coflow_of, units_of, with_units};
ghost use Rattle.coflow_units.specs.Certificate.{Entry, IsBelowLoads, IsFeasible, TakesGreatestPorts, rest};
ghost use Rattle.coflow_units.specs.Ordering.{IsOrdering};
ghost use Rattle.coflow_units.specs.Schedule.{IsClear, IsRuns, IsValid};
ghost use Rattle.coflow_units.specs.Patient.{IsPatient, IsServedOrWaits};
ghost use Rattle.coflow_units.specs.PortWord.{FitsWord, word_of};
ghost use Rattle.coflow_units.specs.PortWord.PortStage.{drawn, granted, reported, taken_back, unposted};
ghost use Rattle.coflow_units.specs.Grants.{IsGrants, IsRunLength};
ghost use Rattle.coflow_units.specs.Rows.{AllTies, EqualWeights, OneEmpty, Realistic, UnequalWeights, all_ties, all_ties_places, equal_weights, equal_weights_places, one_empty, one_empty_places, realistic, realistic_places, unequal_weights, unequal_weights_places};
ghost use Rattle.coflow_units.specs.Served.{IsServed, IsServedSoFar, left_after};
ghost use Rattle.coflow_units.specs.SmallCases.{TwoFlowsHold, TwoFlowsRefuse, at_a_later_port, too_dear};

/// For a line and the units left, at most one set of flows is the grants of a slot.
pub fn grants_are_one()
    ensures { (flows : List Flow) (line : List ℕ) (left : ℕ → ℕ) (a b : List ℕ) → IsGrants flows line left a →
        IsGrants flows line left b → a ≡ b }
{}

/// For every line and all units left, some set of flows is the grants of a slot.
pub fn grants_exist()
    ensures { (flows : List Flow) (line : List ℕ) (left : ℕ → ℕ) →
        (granted : List ℕ) × IsGrants flows line left granted }
{}

/// No two granted flows share a port, so one slot serves them all.
pub fn grants_are_clear()
    ensures { (flows : List Flow) (line : List ℕ) (left : ℕ → ℕ) (granted : List ℕ) → IsGrants flows line left granted →
        IsClear flows granted }
{}

/// In its slot, the grants of a line are what the order asks: a flow of the line that has units left is granted,
/// or it shares a port with a granted flow of a coflow no later in the line.
pub fn grants_are_patient()
    ensures { (flows : List Flow) (line : List ℕ) (left : ℕ → ℕ) (granted : List ℕ) (f : ℕ) →
        IsGrants flows line left granted → f < length flows → Contains line (coflow_of flows f) → 0 < left f →
        IsServedOrWaits flows line granted f }
{}

/// The grants depend on which flows have units left, and not on how many.
pub fn grants_look_at_owing()
    ensures { (flows : List Flow) (line : List ℕ) (left after : ℕ → ℕ) (granted : List ℕ) →
        ((f : ℕ) → f < length flows → 0 < left f → 0 < after f) →
        ((f : ℕ) → f < length flows → 0 < after f → 0 < left f) →
        IsGrants flows line left granted → IsGrants flows line after granted }
{}

/// Where a flow of the line has units left, something is granted.
pub fn grants_are_not_idle()
    ensures { (flows : List Flow) (line : List ℕ) (left : ℕ → ℕ) (granted : List ℕ) (f : ℕ) →
        IsGrants flows line left granted → f < length flows → Contains line (coflow_of flows f) → 0 < left f →
        (g : ℕ) × Contains granted g }
{}

/// The grants of a slot may be served as they are for one number of slots, the greatest that is asked for and that each
/// granted flow has units for.
pub fn run_length_is_one()
    ensures exists { (left : ℕ → ℕ) (granted : List ℕ) (most : ℕ) → (n : ℕ) × IsRunLength left granted most n }
    ensures one { (left : ℕ → ℕ) (granted : List ℕ) (most a b : ℕ) → IsRunLength left granted most a →
        IsRunLength left granted most b → a ≡ b }
{}

/// An order has at most one served schedule.
pub fn served_is_one()
    ensures { (flows : List Flow) (line : List ℕ) (a b : List (List ℕ)) → IsServed flows line a →
        IsServed flows line b → a ≡ b }
{}

/// An order that names the coflow of each flow with units has a served schedule.
pub fn served_exists()
    ensures { (flows : List Flow) (line : List ℕ) →
        ((f : ℕ) → f < length flows → 0 < units_of flows f → Contains line (coflow_of flows f)) →
        (slots : List (List ℕ)) × IsServed flows line slots }
{}

/// The served schedule of an order is valid and patient for that order: it serves each unit once, and a flow waits only
/// where a port serves a coflow no later in the order.
pub fn served_is_patient()
    ensures valid { (flows : List Flow) (line : List ℕ) (slots : List (List ℕ)) → IsServed flows line slots →
        IsValid flows slots }
    ensures patient { (flows : List Flow) (line : List ℕ) (slots : List (List ℕ)) → IsServed flows line slots →
        IsPatient flows line slots }
{}

/// Where something is granted, the same grants may be served for n slots at once, as long as each granted flow has n
/// units left. So runs and single slots make the same schedule.
pub fn served_by_runs()
    ensures { (flows : List Flow) (line : List ℕ) (slots : List (List ℕ)) (granted : List ℕ) (n f : ℕ) →
        IsServedSoFar flows line slots → IsGrants flows line (left_after flows slots) granted → Contains granted f →
        ((g : ℕ) → Contains granted g → n ≤ left_after flows slots g) →
        IsServedSoFar flows line (slots ++ replicate n granted) }
{}

/// A schedule is cut into longest runs of equal slots in one way alone.
pub fn runs_are_one()
    ensures { (slots : List (List ℕ)) (a b : List (ℕ × List ℕ)) → IsRuns slots a → IsRuns slots b → a ≡ b }
{}

/// What is left of an instance, with the coflows that are present, is an instance over the same flow numbers.
pub fn what_is_left()
    ensures instance { (i : Instance) (present : List ℕ) (units : ℕ → ℕ) → IsInstance i → IsStrictlyIncreasing present →
        ((f : ℕ) → f < length i.flows → 0 < units f → Contains present (coflow_of i.flows f)) → IsInstance
        (record { coflows = present; weight = i.weight; ports = i.ports; flows = with_units units i.flows }) }
    ensures units { (units : ℕ → ℕ) (flows : List Flow) (f : ℕ) → f < length flows →
        units_of (with_units units flows) f ≡ units f }
    ensures coflow { (units : ℕ → ℕ) (flows : List Flow) (f : ℕ) → f < length flows →
        coflow_of (with_units units flows) f ≡ coflow_of flows f }
{}

/// The definitions give what was worked out by hand.
pub fn rows_hold()
    ensures equal_weights { EqualWeights }
    ensures unequal_weights { UnequalWeights }
    ensures one_empty { OneEmpty }
    ensures all_ties { AllTies }
    ensures realistic { Realistic }
{}

/// The definitions hold of some small cases, and not of others.
pub fn small_cases_hold()
    ensures holds { TwoFlowsHold }
    ensures refuses { TwoFlowsRefuse }
{}

/// The word of a port tells whether its last post waits for an agent, was drawn, or was reported, and its slot and its
/// flow. It tells neither the agent nor the units of a report. A port without a post and one whose post was taken back
/// have the word 0, and no other has.
pub fn port_words_tell()
    ensures same { (slot flow slot' flow' : ℕ) → FitsWord slot flow → FitsWord slot' flow' →
        word_of granted slot flow ≡ word_of granted slot' flow' → (slot ≡ slot') × (flow ≡ flow') }
    ensures granted { (agent slot flow slot' flow' : ℕ) → FitsWord slot flow → FitsWord slot' flow' →
        word_of granted slot flow ≢ word_of (drawn agent) slot' flow' }
    ensures granted_reported { (agent units slot flow slot' flow' : ℕ) → FitsWord slot flow → FitsWord slot' flow' →
        word_of granted slot flow ≢ word_of (reported agent units) slot' flow' }
    ensures drawn { (agent other units slot flow slot' flow' : ℕ) → FitsWord slot flow → FitsWord slot' flow' →
        word_of (drawn agent) slot flow ≢ word_of (reported other units) slot' flow' }
    ensures same_drawn { (agent other slot flow slot' flow' : ℕ) → FitsWord slot flow → FitsWord slot' flow' →
        word_of (drawn agent) slot flow ≡ word_of (drawn other) slot' flow' → (slot ≡ slot') × (flow ≡ flow') }
    ensures same_reported { (agent units other more slot flow slot' flow' : ℕ) → FitsWord slot flow →
        FitsWord slot' flow' → word_of (reported agent units) slot flow ≡ word_of (reported other more) slot' flow' →
        (slot ≡ slot') × (flow ≡ flow') }
    ensures granted_not_zero { (slot flow : ℕ) → word_of granted slot flow ≢ 0 }
    ensures drawn_not_zero { (agent slot flow : ℕ) → word_of (drawn agent) slot flow ≢ 0 }
    ensures reported_not_zero { (agent units slot flow : ℕ) → word_of (reported agent units) slot flow ≢ 0 }
    ensures unposted { (slot flow : ℕ) → word_of unposted slot flow ≡ 0 }
    ensures taken_back { (slot flow : ℕ) → word_of taken_back slot flow ≡ 0 }
    ensures posted { word_of granted 1 0 ≡ 2305843009214742528 }
    ensures taken { (agent : ℕ) → word_of (drawn agent) 1 0 ≡ 4611686018428436480 }
{}

/// An instance has at most one ordering certificate: the rules leave no tie open.
pub fn ordering_is_one()
    ensures { (i : Instance) (a b : List Entry) → IsOrdering i a → IsOrdering i b → a ≡ b }
{}

/// Each instance has an ordering certificate, also one without coflows or without flows.
pub fn ordering_exists()
    ensures { (i : Instance) → IsInstance i → (entries : List Entry) × IsOrdering i entries }
{}

/// The ordering certificate is feasible; each of its ports has the greatest load of its front; and where that load is
/// not 0, what the placed coflow keeps is below its own load there.
pub fn ordering_is_feasible()
    ensures feasible { (i : Instance) (entries : List Entry) → IsOrdering i entries →
        IsFeasible i.flows i.weight entries }
    ensures greatest { (i : Instance) (entries : List Entry) → IsOrdering i entries →
        TakesGreatestPorts i.flows i.ports entries }
    ensures below { (i : Instance) (entries : List Entry) → IsOrdering i entries →
        IsBelowLoads i.flows (rest i.flows i.weight entries) entries }
{}

/// The orders that were worked out by hand are the ordering certificates of their instances. One with another coflow at
/// the last place is none, nor is one with y rounded up, nor one with a later port of as much load.
pub fn rows_are_ordered()
    ensures equal_weights { IsOrdering equal_weights equal_weights_places }
    ensures unequal_weights { IsOrdering unequal_weights unequal_weights_places }
    ensures one_empty { IsOrdering one_empty one_empty_places }
    ensures all_ties { IsOrdering all_ties all_ties_places }
    ensures realistic { IsOrdering realistic realistic_places }
    ensures other_coflow { IsOrdering equal_weights unequal_weights_places → ⊥ }
    ensures rounded_up { IsOrdering equal_weights too_dear → ⊥ }
    ensures later_port { IsOrdering all_ties at_a_later_port → ⊥ }
{}
