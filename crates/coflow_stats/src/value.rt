//! Coflows of a schedule, and the numbers that are told of them. Slots count from 1.

/// The groups of coflows by the size of their longest flow and by how many flows they have: four, as Chowdhury, Zhong
/// and Stoica count them ("Efficient coflow scheduling with Varys", SIGCOMM 2014).
#[derive(Clone, Copy, Debug, PartialEq, Eq)]
pub enum Group {
    /// No flow of 5 megabytes or more, and at most 50 flows.
    ShortNarrow,
    /// A flow of 5 megabytes or more, and at most 50 flows.
    LongNarrow,
    /// No flow of 5 megabytes or more, and more than 50 flows.
    ShortWide,
    /// A flow of 5 megabytes or more, and more than 50 flows.
    LongWide,
}

/// A coflow of a schedule.
#[derive(Clone, Copy, Debug, PartialEq, Eq)]
pub struct Finished {
    pub id: u32,
    /// The slot after which it may be served; 0 in a plan.
    pub arrival: u64,
    pub flows: u32,
    pub units: u64,
    /// The units of its longest flow.
    pub longest: u64,
    /// Its greatest load on a port, in units.
    pub bottleneck: u64,
    pub weight: u64,
    /// The last slot that serves it; 0 where it has no units.
    pub completion: u64,
}

/// The numbers at 50, 95 and 99 per cent of a list.
#[derive(Clone, Copy, Debug, PartialEq, Eq)]
pub struct Ranks {
    pub median: u64,
    pub p95: u64,
    pub p99: u64,
}

/// How many durations there are, their sum and their ranks. There are no ranks exactly where there is no duration.
#[derive(Clone, Copy, Debug, PartialEq, Eq)]
pub struct Summary {
    pub count: u32,
    pub total: u128,
    pub ranks: Option<Ranks>,
}

/// What is known of a schedule as a whole: the lower bound on its cost, its cost, and whether it is that of an online
/// run.
#[derive(Clone, Copy, Debug, PartialEq, Eq)]
pub struct Totals {
    pub bound: u128,
    pub cost: u128,
    pub online: bool,
}

/// The numbers of a schedule.
#[derive(Clone, Copy, Debug, PartialEq, Eq)]
pub struct Stats {
    pub bound: u128,
    pub cost: u128,
    /// The sum of weight times arrival, of an online run alone.
    pub arrivals: Option<u128>,
    /// How many slots the schedule has.
    pub makespan: u64,
    pub all: Summary,
    pub short_narrow: Summary,
    pub long_narrow: Summary,
    pub short_wide: Summary,
    pub long_wide: Summary,
}
