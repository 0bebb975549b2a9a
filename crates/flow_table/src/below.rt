//! How many numbers stand below others.
ghost use Rattle.std.specs.Prelude.{◌≡◌, ◌≤◌, IsTrue, length};
ghost use Rattle.coflow_units.specs.declared.limits.TheConstants.{MAX_MAPPERS};
ghost use Rattle.flow_table.specs.Spots.{IsAscending, pairs};

use crate::spots::Spot;

/// For each of the rests, how many of the places come below it, in all. Both ascend. It takes as many searches as the
/// shorter list has elements.
pub(crate) fn pairs_below(places: &[Spot], rests: &[Spot]) -> u64
    requires few_places { length places.now ≤ MAX_MAPPERS }
    requires few_rests { length rests.now ≤ MAX_MAPPERS }
    requires places_ascend { IsAscending places.now }
    requires rests_ascend { IsAscending rests.now }
    ensures { result ≡ pairs places.now rests.now }
{
    if is_none_below(places, rests) {
        return 0;
    }
    if places.len() < rests.len() {
        sum_by_places(places, rests)
    } else {
        sum_by_rests(places, rests)
    }
}

/// The least place is not below the greatest rest, so there is no pair.
fn is_none_below(places: &[Spot], rests: &[Spot]) -> bool
    requires places_ascend { IsAscending places.now }
    requires rests_ascend { IsAscending rests.now }
    ensures { IsTrue result → pairs places.now rests.now ≡ 0 }
{
    if places.len() == 0 {
        return true;
    }
    if rests.len() == 0 {
        return true;
    }
    rests[rests.len() - 1].number <= places[0].number
}

/// The pairs, by one search for each of the places.
fn sum_by_places(places: &[Spot], rests: &[Spot]) -> u64
    requires few_places { length places.now ≤ MAX_MAPPERS }
    requires few_rests { length rests.now ≤ MAX_MAPPERS }
    requires rests_ascend { IsAscending rests.now }
    ensures { result ≡ pairs places.now rests.now }
{
    let mut pairs = 0;
    for place in places {
        let upto = rests.partition_point(|rest| rest.number <= place.number);
        pairs += (rests.len() - upto) as u64;
    }
    pairs
}

/// The pairs, by one search for each of the rests.
fn sum_by_rests(places: &[Spot], rests: &[Spot]) -> u64
    requires few_places { length places.now ≤ MAX_MAPPERS }
    requires few_rests { length rests.now ≤ MAX_MAPPERS }
    requires places_ascend { IsAscending places.now }
    ensures { result ≡ pairs places.now rests.now }
{
    let mut pairs = 0;
    for rest in rests {
        pairs += places.partition_point(|place| place.number < rest.number) as u64;
    }
    pairs
}
