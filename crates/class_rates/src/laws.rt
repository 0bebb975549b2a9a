//! Laws of classes: what class order there is, and what schedules that keep classes cost.
ghost use Rattle.std.specs.Prelude.{◌≡◌, ℕ, ◌<◌, ◌≤◌, List, Contains, length};
ghost use Rattle.std.specs.List.{range_with_len};
ghost use Rattle.coflow_units.specs.declared.fabric.Flow.{Flow};
ghost use Rattle.coflow_units.specs.Flows.{Instance, IsDistinct, IsInstance, coflow_of};
ghost use Rattle.coflow_units.specs.Completion.{completion, cost, end_of};
ghost use Rattle.coflow_units.specs.Patient.{IsPatient};
ghost use Rattle.coflow_units.specs.Schedule.{IsValid};
ghost use Rattle.coflow_units.specs.Served.{IsServed};
ghost use Rattle.class_rates.specs.Cap.{cap, cap_of_coflow, cap_of_flow};
ghost use Rattle.class_rates.specs.ClassPatient.{IsClassPatient};
ghost use Rattle.class_rates.specs.Classes.{ClassFacts, IsClassOrder, IsFolded, IsPermutation, RisesAlong};
ghost use Rattle.class_rates.specs.Classes.{class_by, class_in, class_of};
ghost use Rattle.class_rates.specs.Rows.{Caps, ClassOrders, ClassesAlong, ClassesByLoad, cap_of_two, folded};

/// In a valid schedule that keeps classes and leaves no port idle that could serve, each flow ends no later than its
/// cap: the loads of its two ports over the coflows of its class and of those before it, less its own units. So each
/// coflow ends by its cap, and the schedule costs at most the sum of weight times cap, whichever flow of a class is
/// served first.
///
/// Source: the argument for order-preserving schedules of Agarwal, Rajakrishnan, Narayan, Agarwal, Shmoys and Vahdat,
/// "Sincronia: near-optimal network design for coflows", SIGCOMM 2018, with classes for coflows.
pub fn class_is_short()
    ensures flow { (i : Instance) (class : ℕ → ℕ) (slots : List (List ℕ)) (f : ℕ) → IsInstance i →
        IsValid i.flows slots → IsClassPatient i.flows class slots → f < length i.flows →
        end_of slots f ≤ cap_of_flow i.flows i.coflows class f }
    ensures coflow { (i : Instance) (class : ℕ → ℕ) (slots : List (List ℕ)) (c : ℕ) → IsInstance i →
        IsValid i.flows slots → IsClassPatient i.flows class slots →
        completion i.flows slots c ≤ cap_of_coflow i.flows i.coflows class c }
    ensures cost { (i : Instance) (class : ℕ → ℕ) (slots : List (List ℕ)) → IsInstance i →
        IsValid i.flows slots → IsClassPatient i.flows class slots →
        cost i.flows i.weight i.coflows slots ≤ cap i.flows i.weight i.coflows class }
{}

/// Coflows have at most one class order, and it has each of them once.
pub fn class_order_is_one()
    ensures one { (coflows : List ℕ) (class : ℕ → ℕ) (a b : List ℕ) → IsClassOrder coflows class a →
        IsClassOrder coflows class b → a ≡ b }
    ensures distinct { (coflows : List ℕ) (class : ℕ → ℕ) (order : List ℕ) → IsClassOrder coflows class order →
        IsDistinct order }
{}

/// A cap depends on the classes of the coflows alone. So folded classes have the cap of the order that was folded,
/// whose classes go by its places.
pub fn cap_is_of_the_order()
    ensures classes { (flows : List Flow) (weight : ℕ → ℕ) (coflows : List ℕ) (class other : ℕ → ℕ) →
        ((c : ℕ) → Contains coflows c → class c ≡ other c) →
        cap flows weight coflows class ≡ cap flows weight coflows other }
    ensures folded { (size : ℕ → ℕ) (flows : List Flow) (weight : ℕ → ℕ) (order : List ℕ) (classes : ℕ)
        (t : ClassFacts) → IsPermutation order → IsFolded size order classes t →
        cap flows weight (range_with_len 0 (length order)) (class_of t) ≡
        cap flows weight (range_with_len 0 (length order)) (class_by size order classes) }
{}

/// Classes do not fall along the order that was folded, whatever the sizes of its coflows are.
pub fn classes_rise()
    ensures { (size : ℕ → ℕ) (order : List ℕ) (classes : ℕ) → RisesAlong (class_by size order classes) order }
{}

/// An order that is folded by count gives the classes of its places.
pub fn count_goes_by_places()
    ensures { (order : List ℕ) (classes coflow : ℕ) → 1 ≤ classes → Contains order coflow →
        class_by (λ c. 1) order classes coflow ≡ class_in order classes coflow }
{}

/// A schedule that is patient for an order along which classes do not fall keeps these classes. So does one that is
/// patient for the class order, and the served schedule of the class order.
pub fn class_order_keeps_classes()
    ensures along { (flows : List Flow) (class : ℕ → ℕ) (order : List ℕ) (slots : List (List ℕ)) →
        RisesAlong class order → ((f : ℕ) → f < length flows → Contains order (coflow_of flows f)) →
        IsValid flows slots → IsPatient flows order slots → IsClassPatient flows class slots }
    ensures patient { (flows : List Flow) (coflows : List ℕ) (class : ℕ → ℕ) (order : List ℕ) (slots : List (List ℕ)) →
        IsClassOrder coflows class order →
        ((f : ℕ) → f < length flows → Contains coflows (coflow_of flows f)) → IsValid flows slots →
        IsPatient flows order slots → IsClassPatient flows class slots }
    ensures served { (flows : List Flow) (coflows : List ℕ) (class : ℕ → ℕ) (order : List ℕ) (slots : List (List ℕ)) →
        IsClassOrder coflows class order →
        ((f : ℕ) → f < length flows → Contains coflows (coflow_of flows f)) →
        IsServed flows order slots → IsClassPatient flows class slots }
{}

/// Of two coflows of 3 units and of 1 unit at the same ports, the shorter one first, two classes have the cap 6 and one
/// class has the cap 12. The classes, class orders and caps of small instances are as they were worked out by hand.
pub fn rows_hold()
    ensures along { ClassesAlong }
    ensures loads { ClassesByLoad }
    ensures orders { ClassOrders }
    ensures caps { Caps }
    ensures first { folded 2 1 ≡ 1 }
    ensures second { folded 2 0 ≡ 2 }
    ensures one { folded 1 0 ≡ 1 }
    ensures two_classes { cap_of_two 2 ≡ 6 }
    ensures one_class { cap_of_two 1 ≡ 12 }
{}
