//! What changes from the flows of one run to those of the next.
ghost use Rattle.std.specs.Prelude.{◌≡◌, ℕ, ◌+◌, ◌<◌, ◌≤◌, ◌^◌, ◌++◌, [], Ok, false, true, IfOk, OnErr, drop, length, min, take, vec_capacity};
ghost use Rattle.std.specs.List.{slice_index_or};
ghost use Rattle.std.specs.List.Sorted.{IsStrictlyIncreasing};
ghost use Rattle.run_list.specs.Kept.{HasRoom, IsTurn, flows_of, toggled};

use crate::mark::Mark;
use crate::turnover::{Turnover, push_all};
use coflow_units::NoMemory;

/// Appends the numbers that tell the flows of a run, and answers its mark. They are what changes from the flows of the
/// run before it, or the flows where these are no more.
///
/// `NoMemory` leaves the numbers as they were.
pub(crate) fn tell(
    numbers: &mut Vec<u32>,
    slots: u64,
    before: &[u32],
    flows: &[u32],
) -> Result<Mark, NoMemory>
    requires few { length flows.now < 2 ^ 32 }
    requires before { IsStrictlyIncreasing before.now }
    requires flows { IsStrictlyIncreasing flows.now }
    ensures front { IfOk result (λ _. take (length numbers.old.items) numbers.new.items ≡ numbers.old.items) }
    ensures slots { IfOk result (λ mark. mark.slots ≡ slots) }
    ensures least { IfOk result (λ mark.
        mark.size ≡ min (length flows.now) (length (toggled before.now flows.now))) }
    ensures size { IfOk result (λ mark. length numbers.old.items + mark.size ≡ length numbers.new.items) }
    ensures told { IfOk result (λ mark.
        flows_of before.now mark (drop (length numbers.old.items) numbers.new.items) ≡ flows.now) }
    ensures ascending { IfOk result (λ _. IsStrictlyIncreasing (drop (length numbers.old.items) numbers.new.items)) }
    ensures refused { OnErr result (numbers.new.items ≡ numbers.old.items) }
{
    let start = numbers.len();
    match tell_changes(numbers, before, flows) {
        Ok(true) => Ok(Mark {
            slots,
            size: (numbers.len() - start) as u32,
            whole: false,
        }),
        Ok(false) => {
            numbers.truncate(start);
            numbers.extend_from_slice(flows)?;
            Ok(Mark {
                slots,
                size: flows.len() as u32,
                whole: true,
            })
        }
        Err(NoMemory) => {
            numbers.truncate(start);
            Err(NoMemory)
        }
    }
}

/// Appends what changes from the flows of one run to those of the next, if it is fewer numbers than the latter, and
/// answers whether it is. If not, or on `NoMemory`, a part of it may stand there.
fn tell_changes(numbers: &mut Vec<u32>, before: &[u32], flows: &[u32]) -> Result<bool, NoMemory>
    ensures front { take (length numbers.old.items) numbers.new.items ≡ numbers.old.items }
    ensures told { result ≡ Ok true → numbers.new.items ≡ numbers.old.items ++ toggled before.now flows.now }
    ensures few { result ≡ Ok true → length (toggled before.now flows.now) < length flows.now }
    ensures many { result ≡ Ok false → length flows.now ≤ length (toggled before.now flows.now) }
{
    let full = numbers.len() + flows.len();
    let mut place = 0;
    let mut next = 0;
    while place < before.len() && next < flows.len() {
        let old = before[place];
        let new = flows[next];
        if old == new {
            place += 1;
            next += 1;
            continue;
        }
        if old < new {
            numbers.push(old)?;
            place += 1;
        } else {
            numbers.push(new)?;
            next += 1;
        }
        if numbers.len() >= full {
            return Ok(false);
        }
    }
    let left = before.len() - place + (flows.len() - next);
    if numbers.len() + left >= full {
        return Ok(false);
    }
    numbers.extend_from_slice(&before[place..])?;
    numbers.extend_from_slice(&flows[next..])?;
    Ok(true)
}

/// Writes the numbers that stand in just one of two ascending lists to the start of a buffer, ascending, and answers
/// how many they are. The changes that are flows are gone, and the others come.
pub(crate) fn toggle(
    flows: &[u32],
    changes: &[u32],
    into: &mut [u32],
    turnover: &mut Turnover,
) -> usize
    requires ascending { IsStrictlyIncreasing flows.now }
    requires changes { IsStrictlyIncreasing changes.now }
    requires room { length (toggled flows.now changes.now) ≤ length into.old }
    requires turnover { HasRoom turnover.old (length flows.now) (length (toggled flows.now changes.now)) }
    ensures count { result ≡ length (toggled flows.now changes.now) }
    ensures written { take result into.new ≡ toggled flows.now changes.now }
    ensures turn { IsTurn turnover.new flows.now (toggled flows.now changes.now) }
    ensures gone_room { vec_capacity turnover.new.gone ≡ vec_capacity turnover.old.gone }
    ensures come_room { vec_capacity turnover.new.come ≡ vec_capacity turnover.old.come }
{
    turnover.clear();
    // Where the changes stand close together, a merge is faster than a search for each.
    if changes.len() < flows.len() / 8 {
        toggle_few(flows, changes, into, turnover)
    } else {
        merge(flows, changes, into, turnover)
    }
}

/// The same where the changes are few: the flows between them are copied as they stand.
fn toggle_few(flows: &[u32], changes: &[u32], into: &mut [u32], turnover: &mut Turnover) -> usize
    requires ascending { IsStrictlyIncreasing flows.now }
    requires changes { IsStrictlyIncreasing changes.now }
    requires room { length (toggled flows.now changes.now) ≤ length into.old }
    requires none_gone { turnover.old.gone.items ≡ [] }
    requires none_come { turnover.old.come.items ≡ [] }
    requires turnover { HasRoom turnover.old (length flows.now) (length (toggled flows.now changes.now)) }
    ensures count { result ≡ length (toggled flows.now changes.now) }
    ensures written { take result into.new ≡ toggled flows.now changes.now }
    ensures turn { IsTurn turnover.new flows.now (toggled flows.now changes.now) }
    ensures gone_room { vec_capacity turnover.new.gone ≡ vec_capacity turnover.old.gone }
    ensures come_room { vec_capacity turnover.new.come ≡ vec_capacity turnover.old.come }
{
    let mut place = 0;
    let mut count = 0;
    for &change in changes {
        let end = place + count_below(&flows[place..], change);
        count = append(into, count, &flows[place..end]);
        place = end;
        if place < flows.len() && flows[place] == change {
            turnover.gone.push_reserved(change);
            place += 1;
        } else {
            turnover.come.push_reserved(change);
            into[count] = change;
            count += 1;
        }
    }
    append(into, count, &flows[place..])
}

/// How many of some ascending numbers are below a bound.
fn count_below(numbers: &[u32], bound: u32) -> usize
    requires ascending { IsStrictlyIncreasing numbers.now }
    ensures within { result ≤ length numbers.now }
    ensures below { (k : ℕ) → k < result → slice_index_or numbers.now k 0 < bound }
    ensures rest { result < length numbers.now → bound ≤ slice_index_or numbers.now result 0 }
{
    let mut place = leap_below(numbers, bound);
    while place < numbers.len() && numbers[place] < bound {
        place += 1;
    }
    place
}

/// As many of some ascending numbers as are below a bound, but for at most 15.
fn leap_below(numbers: &[u32], bound: u32) -> usize
    requires ascending { IsStrictlyIncreasing numbers.now }
    ensures within { result ≤ length numbers.now }
    ensures below { (k : ℕ) → k < result → slice_index_or numbers.now k 0 < bound }
    ensures near { result + 16 ≤ length numbers.now → bound ≤ slice_index_or numbers.now (result + 15) 0 }
{
    let mut place = 0;
    while numbers.len() - place >= 16 && numbers[place + 15] < bound {
        place += 16;
    }
    place
}

/// The same, number by number.
fn merge(flows: &[u32], changes: &[u32], into: &mut [u32], turnover: &mut Turnover) -> usize
    requires ascending { IsStrictlyIncreasing flows.now }
    requires changes { IsStrictlyIncreasing changes.now }
    requires room { length (toggled flows.now changes.now) ≤ length into.old }
    requires none_gone { turnover.old.gone.items ≡ [] }
    requires none_come { turnover.old.come.items ≡ [] }
    requires turnover { HasRoom turnover.old (length flows.now) (length (toggled flows.now changes.now)) }
    ensures count { result ≡ length (toggled flows.now changes.now) }
    ensures written { take result into.new ≡ toggled flows.now changes.now }
    ensures turn { IsTurn turnover.new flows.now (toggled flows.now changes.now) }
    ensures gone_room { vec_capacity turnover.new.gone ≡ vec_capacity turnover.old.gone }
    ensures come_room { vec_capacity turnover.new.come ≡ vec_capacity turnover.old.come }
{
    let mut place = 0;
    let mut next = 0;
    let mut count = 0;
    while place < flows.len() && next < changes.len() {
        let flow = flows[place];
        let change = changes[next];
        if flow == change {
            turnover.gone.push_reserved(change);
            place += 1;
            next += 1;
        } else if flow < change {
            into[count] = flow;
            place += 1;
            count += 1;
        } else {
            turnover.come.push_reserved(change);
            into[count] = change;
            next += 1;
            count += 1;
        }
    }
    push_all(&mut turnover.come, &changes[next..]);
    let count = append(into, count, &flows[place..]);
    append(into, count, &changes[next..])
}

/// Writes numbers behind the first ones of a buffer, and answers how many there are then.
pub(crate) fn append(into: &mut [u32], count: usize, numbers: &[u32]) -> usize
    requires room { count + length numbers.now ≤ length into.old }
    ensures count { result ≡ count + length numbers.now }
    ensures written { take result into.new ≡ take count into.old ++ numbers.now }
{
    let end = count + numbers.len();
    into[count..end].copy_from_slice(numbers);
    end
}
