//! Laws of certificates.
ghost use Rattle.std.specs.Prelude.{◌≡◌, ℕ, ◌+◌, ◌*◌, ◌^◌, ◌<◌, ◌≤◌, List, length, map, reverse, sum_by};
ghost use Rattle.coflow_units.specs.declared.fabric.Flow.{Flow};
ghost use Rattle.coflow_units.specs.declared.fabric.Port.{Port};
ghost use Rattle.coflow_units.specs.Flows.{Instance, IsInstance};
ghost use Rattle.coflow_units.specs.Load.{load, load_of_all};
ghost use Rattle.coflow_units.specs.Schedule.{IsValid};
ghost use Rattle.coflow_units.specs.Completion.{cost};
ghost use Rattle.coflow_units.specs.Certificate.{Entry, dual_value_by_number, over_places, over_places_by_number, used_by_number, IsCertificate, IsFeasible, IsBelowLoads, TakesGreatestPorts, front_loads, own_loads, bound, budget, front, unspent, order_of, rest, scale, slack, used, dual_value};
ghost use Rattle.coflow_units.specs.Patient.{IsPatient};
ghost use Rattle.coflow_units.specs.Rows.{equal_weights};
ghost use Rattle.dual_cert.specs.OtherCertificate.{first_pays};

/// Weak duality: no valid schedule, patient or not, costs less than the bound of a feasible certificate.
///
/// Source: Mastrolilli, Queyranne, Schulz, Svensson and Uhan, "Minimizing the sum of weighted completion times in a
/// concurrent open shop", Operations Research Letters 2010.
pub fn dual_is_bound()
    ensures dual_value { (i : Instance) (entries : List Entry) (slots : List (List ℕ)) → IsCertificate i entries →
        IsFeasible i.flows i.weight entries → IsValid i.flows slots →
        dual_value i.flows entries ≤ 2 * scale * cost i.flows i.weight i.coflows slots }
    ensures bound { (i : Instance) (entries : List Entry) (slots : List (List ℕ)) → IsCertificate i entries →
        IsFeasible i.flows i.weight entries → IsValid i.flows slots →
        bound i.flows entries ≤ cost i.flows i.weight i.coflows slots }
{}

/// A feasible certificate need not be the ordering one. This one of two coflows with 3 units and 1 unit at a port says
/// that each valid schedule costs at least 3.
pub fn first_pays_bounds()
    ensures certificate { IsCertificate equal_weights first_pays }
    ensures feasible { IsFeasible equal_weights.flows equal_weights.weight first_pays }
    ensures bound { bound equal_weights.flows first_pays ≡ 3 }
    ensures cost { (slots : List (List ℕ)) → IsValid equal_weights.flows slots →
        3 ≤ cost equal_weights.flows equal_weights.weight equal_weights.coflows slots }
{}

/// A valid schedule that is patient for the order of a feasible certificate, each of whose ports is a greatest one of
/// its front, costs at most four times the bound and the slack, which is what rounding down leaves unspent. A feasible
/// certificate that is not the ordering one may have a large slack.
///
/// Source: the factor of four of Agarwal, Rajakrishnan, Narayan, Agarwal, Shmoys and Vahdat, "Sincronia: near-optimal
/// network design for coflows", SIGCOMM 2018.
pub fn within_four()
    ensures dual_value { (i : Instance) (entries : List Entry) (slots : List (List ℕ)) → IsInstance i →
        IsCertificate i entries → IsFeasible i.flows i.weight entries → TakesGreatestPorts i.flows i.ports entries →
        IsValid i.flows slots → IsPatient i.flows (order_of entries) slots →
        scale * cost i.flows i.weight i.coflows slots ≤ 2 * dual_value i.flows entries +
        2 * unspent i.flows i.weight entries }
    ensures bound { (i : Instance) (entries : List Entry) (slots : List (List ℕ)) → IsInstance i →
        IsCertificate i entries → IsFeasible i.flows i.weight entries → TakesGreatestPorts i.flows i.ports entries →
        IsValid i.flows slots → IsPatient i.flows (order_of entries) slots →
        cost i.flows i.weight i.coflows slots ≤ 4 * bound i.flows entries + slack i.flows i.weight entries }
{}

/// In a feasible certificate, what a coflow spends and what it keeps are together its budget.
pub fn rest_is_exact()
    ensures { (flows : List Flow) (weight : ℕ → ℕ) (entries : List Entry) → IsFeasible flows weight entries → (c : ℕ) →
        used flows entries c + rest flows weight entries c ≡ budget weight c }
{}

/// Where no port has more load than k, the dual value of a feasible certificate is at most 2 * k times the sum of the
/// budgets, and what is unspent, times the loads, at most k times that sum.
pub fn values_fit()
    ensures dual_value { (i : Instance) (entries : List Entry) (k : ℕ) → IsCertificate i entries →
        IsFeasible i.flows i.weight entries →
        ((port : Port) → port.number < i.ports → load_of_all i.flows (front entries) port ≤ k) →
        dual_value i.flows entries ≤ 2 * (k * sum_by (budget i.weight) (front entries)) }
    ensures unspent { (i : Instance) (entries : List Entry) (k : ℕ) → IsCertificate i entries →
        ((port : Port) → port.number < i.ports → load_of_all i.flows (front entries) port ≤ k) →
        unspent i.flows i.weight entries ≤ k * sum_by (budget i.weight) (front entries) }
{}

/// A certificate may be read from place 1 on, as a report lists the places: each sum over the list from the last place
/// is the sum over the numbers of the places.
pub fn places_have_numbers()
    ensures used { (flows : List Flow) (places : List Entry) (c : ℕ) →
        used flows (reverse places) c ≡ used_by_number flows places c }
    ensures dual_value { (flows : List Flow) (places : List Entry) →
        dual_value flows (reverse places) ≡ dual_value_by_number flows places }
    ensures over_places { (flows : List Flow) (number : ℕ → ℕ) (places : List Entry) →
        over_places flows number (reverse places) ≡ over_places_by_number flows number places }
    ensures order { (places : List Entry) → order_of (reverse places) ≡ map (λ (e : Entry). e.coflow) places }
{}

/// The slack of a certificate whose rests are below the loads, as the ordering certificate's are, comes from rounding
/// alone. It is below `2 * sum(load * front load) / 2^40 + 1`; at most 2 for each coflow where no port has more than
/// 2^20 units; and at most twice the sum of the front loads where no port has more than 2^40 units.
pub fn slack_is_small()
    ensures by_loads { (i : Instance) (entries : List Entry) →
        IsBelowLoads i.flows (rest i.flows i.weight entries) entries →
        scale * slack i.flows i.weight entries < 2 * own_loads i.flows entries + scale }
    ensures two_each { (i : Instance) (entries : List Entry) → IsCertificate i entries →
        IsBelowLoads i.flows (rest i.flows i.weight entries) entries →
        ((port : Port) → port.number < i.ports → load_of_all i.flows (front entries) port ≤ 2 ^ 20) →
        slack i.flows i.weight entries ≤ 2 * length entries }
    ensures by_fronts { (i : Instance) (entries : List Entry) → IsCertificate i entries →
        IsBelowLoads i.flows (rest i.flows i.weight entries) entries →
        ((port : Port) → port.number < i.ports → load_of_all i.flows (front entries) port ≤ scale) →
        slack i.flows i.weight entries ≤ 2 * front_loads i.flows entries }
{}
