//! Policies side by side as a picture.
use crate::value::Step;
use coflow_stats::Summary;
use coflow_units::Items;

/// So many policies have a look of their own, by dashes and by colour.
pub const MAX_POLICIES: usize = 5;

/// A policy: its name, what its schedule costs, and how that completes the coflows that have units.
#[derive(Drop)]
pub struct Policy {
    pub name: Items<u8>,
    /// The sum of weight times completion.
    pub cost: u128,
    /// The curve of completed coflows.
    pub steps: Items<Step>,
    /// The completions, in slots.
    pub times: Summary,
}

/// Policies as a picture: the bound under which none of them costs, and how far the axes reach.
#[derive(Drop)]
pub struct PoliciesPicture {
    /// How many coflows have units.
    pub coflows: u64,
    /// No schedule costs less.
    pub bound: u128,
    /// The greatest cost of a policy.
    pub most: u128,
    /// The last slot in which a policy completes a coflow.
    pub last: u64,
    pub policies: Items<Policy>,
}
