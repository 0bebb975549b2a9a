//! One pass over the flows of a line that owe.
ghost use Rattle.std.specs.Prelude.{◌≡◌, ℕ, ◌<◌, ◌≤◌, ◌+◌, List, None, All, length, nat_lt, slice_index};
ghost use Rattle.coflow_units.specs.declared.fabric.Flow.{Flow};
ghost use Rattle.coflow_units.specs.Flows.{IsDistinct, coflow_of, ingress_of};
ghost use Rattle.coflow_units.specs.Grants.{place_in};
ghost use Rattle.greedy_rates.specs.OpenPorts.{how_many, open_egresses, open_ingresses};
ghost use Rattle.greedy_rates.specs.Owed.{IsOwed};
ghost use Rattle.greedy_rates.specs.Pass.{IsGranting, IsNext};
ghost use Rattle.greedy_rates.specs.Room.{flow_at_ingress};
ghost use Rattle.coflow_units.specs.Starts.{IsStarts};

use crate::owing::Owing;
use crate::pass::clear;
use coflow_units::Flow;

/// How many ports can still have a grant: some flow owes there, and none stands.
#[derive(Drop)]
struct OpenPorts {
    ingress: usize,
    egress: usize,
}

/// Grants anew, as a look at each flow of the line would. A coflow or a group that owes nothing, and a group whose
/// ingress has a flow, are passed over, and the pass ends where no port of a side is open.
pub fn grant_owing_line(
    at: &mut [Option<u32>],
    busy: &mut [bool],
    flows: &[Flow],
    starts: &[u32],
    line: &[u32],
    owing: &Owing,
)
    requires starts { IsStarts flows.now starts.now }
    requires distinct { IsDistinct line.now }
    requires coflows { All (λ c. c + 1 < length starts.now) line.now }
    requires owed { IsOwed flows.now owing.now }
    requires sums { length starts.now ≡ length owing.now.of_coflow + 1 }
    requires ingress_in_range { All (λ (x : Flow). x.ingress < length at.old) flows.now }
    requires egress_in_range { All (λ (x : Flow). x.egress < length busy.old) flows.now }
    ensures granting { IsGranting flows.now line.now (λ f. slice_index owing.now.left f) (length line.now) 0 at.new
        busy.new }
    ensures at_len { length at.new ≡ length at.old }
    ensures busy_len { length busy.new ≡ length busy.old }
{
    clear(at, busy);
    let mut ports = OpenPorts {
        ingress: owing_ports(owing.at_ingress()),
        egress: owing_ports(owing.at_egress()),
    };
    for coflow in line {
        if ports.ingress == 0 {
            return;
        }
        if ports.egress == 0 {
            return;
        }
        if owing.of_coflow(*coflow) == 0 {
            continue;
        }
        let first = starts[*coflow as usize];
        let end = starts[*coflow as usize + 1];
        grant_owing_coflow(at, busy, &mut ports, flows, first, end, owing);
    }
}

/// At how many ports units are owed.
fn owing_ports(owed: &[u64]) -> usize
    ensures { result ≡ how_many (λ p. nat_lt 0 (slice_index owed.now p)) owed.now }
{
    let mut count = 0;
    for units in owed {
        if *units == 0 {
            continue;
        }
        count += 1;
    }
    count
}

/// Grants the flows from `first` on and below `end`, group by group.
fn grant_owing_coflow(
    at: &mut [Option<u32>],
    busy: &mut [bool],
    ports: &mut OpenPorts,
    flows: &[Flow],
    first: u32,
    end: u32,
    owing: &Owing,
)
    requires end { end ≤ length flows.now }
    requires owed { IsOwed flows.now owing.now }
    requires ingress_in_range { All (λ (x : Flow). x.ingress < length at.old) flows.now }
    requires egress_in_range { All (λ (x : Flow). x.egress < length busy.old) flows.now }
    requires open_ingress { ports.old.ingress ≡ open_ingresses owing.now.at_ingress at.old }
    requires open_egress { ports.old.egress ≡ open_egresses owing.now.at_egress busy.old }
    ensures at_len { length at.new ≡ length at.old }
    ensures busy_len { length busy.new ≡ length busy.old }
    ensures open_ingress { ports.new.ingress ≡ open_ingresses owing.now.at_ingress at.new }
    ensures open_egress { ports.new.egress ≡ open_egresses owing.now.at_egress busy.new }
    ensures granting { (line : List ℕ) (k : ℕ) → IsNext flows.now line k first end →
        IsGranting flows.now line (λ f. slice_index owing.now.left f) k 0 at.old busy.old →
        IsGranting flows.now line (λ f. slice_index owing.now.left f) (k + 1) 0 at.new busy.new }
{
    let mut number = first;
    while number < end {
        let behind = owing.behind(number);
        let group = number;
        number = behind;
        if owing.of_group(behind) == 0 {
            continue;
        }
        if at[flows[group as usize].ingress as usize].is_some() {
            continue;
        }
        grant_group(at, busy, ports, flows, group, behind, owing);
    }
}

/// Grants the first flow of a group that has units left and finds its egress free. The ingress of the group is free.
fn grant_group(
    at: &mut [Option<u32>],
    busy: &mut [bool],
    ports: &mut OpenPorts,
    flows: &[Flow],
    first: u32,
    behind: u32,
    owing: &Owing,
)
    requires first { first < length flows.now }
    requires behind { behind ≡ slice_index owing.now.behind first }
    requires owed { IsOwed flows.now owing.now }
    requires ingress_in_range { All (λ (x : Flow). x.ingress < length at.old) flows.now }
    requires egress_in_range { All (λ (x : Flow). x.egress < length busy.old) flows.now }
    requires free { flow_at_ingress at.old (ingress_of flows.now first) ≡ None }
    requires open_ingress { ports.old.ingress ≡ open_ingresses owing.now.at_ingress at.old }
    requires open_egress { ports.old.egress ≡ open_egresses owing.now.at_egress busy.old }
    ensures at_len { length at.new ≡ length at.old }
    ensures busy_len { length busy.new ≡ length busy.old }
    ensures open_ingress { ports.new.ingress ≡ open_ingresses owing.now.at_ingress at.new }
    ensures open_egress { ports.new.egress ≡ open_egresses owing.now.at_egress busy.new }
    ensures granting { (line : List ℕ) (k : ℕ) →
        ((f : ℕ) → first ≤ f → f < behind → place_in line (coflow_of flows.now f) ≡ k) →
        IsGranting flows.now line (λ f. slice_index owing.now.left f) k first at.old busy.old →
        IsGranting flows.now line (λ f. slice_index owing.now.left f) k behind at.new busy.new }
{
    let left = owing.left();
    for number in first..behind {
        let flow = flows[number as usize];
        if left[number as usize] == 0 {
            continue;
        }
        if busy[flow.egress as usize] {
            continue;
        }
        at[flow.ingress as usize] = Some(number);
        busy[flow.egress as usize] = true;
        ports.ingress -= 1;
        ports.egress -= 1;
        return;
    }
}
