//! Tests of tables, runs, schedules, served orders, rankers and epochs. That their definitions give what was worked out
//! by hand is said by laws for some rows; here are more of them, and that a call that may answer want of memory answers
//! where memory is there. Flows are told by their traces.
#![tactic(auto)]

#[cfg(test)]
mod actions;
#[cfg(test)]
mod bench_inputs;
#[cfg(test)]
mod benches;
#[cfg(test)]
mod counting;
#[cfg(test)]
mod inputs;
#[cfg(test)]
mod limits;
#[cfg(test)]
mod orders;
#[cfg(test)]
mod run_lists;
#[cfg(test)]
mod schedules;
#[cfg(test)]
mod served;
#[cfg(test)]
mod stats;
#[cfg(test)]
mod table_inputs;
#[cfg(test)]
mod tables;
