//! What a run of `live` is played on.
use client_session::Hall;
use outside::Wire;
use slot_runner::Site;
use std::alloc::Global;
use workload::Script;

/// What a run of `live` goes by: its hall, the site where its crew works, its script, and the most slots that each run
/// of slots may have.
#[derive(Drop)]
pub(crate) struct Stage<'a, W: Wire> {
    pub(crate) alloc: Global,
    pub(crate) hall: &'a Hall,
    pub(crate) site: &'a Site<W>,
    pub(crate) script: &'a Script,
    pub(crate) most: u64,
}
