//! One pass over the flows of a line, and what is told of the flows that it granted.
ghost use Rattle.std.specs.Prelude.{◌≡◌, ℕ, ◌<◌, ◌≤◌, ◌+◌, ◌^◌, false, List, None, Some, All, length, slice_index, take};
ghost use Rattle.std.specs.List.{slice_index_or};
ghost use Rattle.std.specs.List.Sorted.{IsStrictlyIncreasing};
ghost use Rattle.coflow_units.specs.declared.fabric.Flow.{Flow};
ghost use Rattle.coflow_units.specs.Flows.{IsDistinct};
ghost use Rattle.greedy_rates.specs.Pass.{IsGranting, IsListing, IsNext};
ghost use Rattle.coflow_units.specs.LeastLeft.{IsLeastLeft};
ghost use Rattle.greedy_rates.specs.Room.{flow_at_ingress};
ghost use Rattle.coflow_units.specs.Starts.{IsStarts};

use coflow_units::Flow;

/// How many flows were granted, and the least units left among them. Both are 0 where nothing is granted.
#[derive(Clone, Copy, Debug, PartialEq, Eq)]
pub struct Granted {
    pub count: u32,
    pub length: u64,
}

/// Grants anew: afterwards `at` has for each ingress the granted flow, and `busy` marks the egress ports of granted
/// flows.
pub fn grant_line(
    at: &mut [Option<u32>],
    busy: &mut [bool],
    flows: &[Flow],
    starts: &[u32],
    line: &[u32],
    left: &[u64],
)
    requires starts { IsStarts flows.now starts.now }
    requires distinct { IsDistinct line.now }
    requires coflows { All (λ c. c + 1 < length starts.now) line.now }
    requires left { length left.now ≡ length flows.now }
    requires ingress_in_range { All (λ (x : Flow). x.ingress < length at.old) flows.now }
    requires egress_in_range { All (λ (x : Flow). x.egress < length busy.old) flows.now }
    ensures granting { IsGranting flows.now line.now (λ f. slice_index left.now f) (length line.now) 0 at.new busy.new }
    ensures at_len { length at.new ≡ length at.old }
    ensures busy_len { length busy.new ≡ length busy.old }
{
    clear(at, busy);
    for coflow in line {
        let first = starts[*coflow as usize];
        let end = starts[*coflow as usize + 1];
        grant_coflow(at, busy, flows, first, end, left);
    }
}

/// No flow stands, and no egress is busy.
pub fn clear(at: &mut [Option<u32>], busy: &mut [bool])
    ensures none { (p : ℕ) → flow_at_ingress at.new p ≡ None }
    ensures free { (p : ℕ) → slice_index_or busy.new p false ≡ false }
    ensures at_len { length at.new ≡ length at.old }
    ensures busy_len { length busy.new ≡ length busy.old }
{
    at.fill(None);
    busy.fill(false);
}

/// Grants each flow from `first` on and below `end` that has units left and finds both of its ports free.
fn grant_coflow(
    at: &mut [Option<u32>],
    busy: &mut [bool],
    flows: &[Flow],
    first: u32,
    end: u32,
    left: &[u64],
)
    requires end { end ≤ length flows.now }
    requires left { length left.now ≡ length flows.now }
    requires ingress_in_range { All (λ (x : Flow). x.ingress < length at.old) flows.now }
    requires egress_in_range { All (λ (x : Flow). x.egress < length busy.old) flows.now }
    ensures at_len { length at.new ≡ length at.old }
    ensures busy_len { length busy.new ≡ length busy.old }
    ensures granting { (line : List ℕ) (k : ℕ) → IsNext flows.now line k first end →
        IsGranting flows.now line (λ f. slice_index left.now f) k 0 at.old busy.old →
        IsGranting flows.now line (λ f. slice_index left.now f) (k + 1) 0 at.new busy.new }
{
    for number in first..end {
        let flow = flows[number as usize];
        if left[number as usize] == 0 {
            continue;
        }
        if at[flow.ingress as usize].is_some() {
            continue;
        }
        if busy[flow.egress as usize] {
            continue;
        }
        at[flow.ingress as usize] = Some(number);
        busy[flow.egress as usize] = true;
    }
}

/// Writes the flows that stand at an ingress to the front of `listed`, ascending, and tells how many they are and the
/// least units left among them.
pub fn tell_granted(at: &[Option<u32>], listed: &mut [u32], left: &[u64]) -> Granted
    requires room { length listed.old ≡ length at.now }
    requires ports { length at.now < 2 ^ 32 }
    requires once { (p q f : ℕ) → flow_at_ingress at.now p ≡ Some f → flow_at_ingress at.now q ≡ Some f → p ≡ q }
    requires flows { (p f : ℕ) → flow_at_ingress at.now p ≡ Some f → f < length left.now }
    ensures listing { IsListing at.now (length at.now) (take result.count listed.new) }
    ensures ascending { IsStrictlyIncreasing (take result.count listed.new) }
    ensures within { result.count ≤ length listed.old }
    ensures len { length listed.new ≡ length listed.old }
    ensures least { IsLeastLeft (λ f. slice_index left.now f) (take result.count listed.new) result.length }
{
    let count = list_granted(at, listed);
    let length = least_left(left, &listed[..count as usize]);
    Granted { count, length }
}

/// Writes the flows that stand at an ingress to the front of `listed`, ascending, and tells how many they are.
fn list_granted(at: &[Option<u32>], listed: &mut [u32]) -> u32
    requires room { length listed.old ≡ length at.now }
    requires ports { length at.now < 2 ^ 32 }
    requires once { (p q f : ℕ) → flow_at_ingress at.now p ≡ Some f → flow_at_ingress at.now q ≡ Some f → p ≡ q }
    ensures listing { IsListing at.now (length at.now) (take result listed.new) }
    ensures ascending { IsStrictlyIncreasing (take result listed.new) }
    ensures within { result ≤ length listed.old }
    ensures len { length listed.new ≡ length listed.old }
{
    let count = collect_granted(at, listed);
    listed[..count as usize].sort_unstable();
    count
}

/// Writes the flows that stand at an ingress to the front of `listed`, by ingress, and tells how many they are.
fn collect_granted(at: &[Option<u32>], listed: &mut [u32]) -> u32
    requires room { length listed.old ≡ length at.now }
    requires ports { length at.now < 2 ^ 32 }
    requires once { (p q f : ℕ) → flow_at_ingress at.now p ≡ Some f → flow_at_ingress at.now q ≡ Some f → p ≡ q }
    ensures listing { IsListing at.now (length at.now) (take result listed.new) }
    ensures within { result ≤ length listed.old }
    ensures len { length listed.new ≡ length listed.old }
{
    let mut count = 0;
    for stands in at {
        let Some(flow) = stands else {
            continue;
        };
        listed[count as usize] = *flow;
        count += 1;
    }
    count
}

/// The least units left among the granted flows, and 0 where nothing is granted.
fn least_left(left: &[u64], granted: &[u32]) -> u64
    requires { All (λ f. f < length left.now) granted.now }
    ensures { IsLeastLeft (λ f. slice_index left.now f) granted.now result }
{
    if granted.is_empty() {
        return 0;
    }
    let mut least = left[granted[0] as usize];
    for flow in granted {
        least = least.min(left[*flow as usize]);
    }
    least
}
