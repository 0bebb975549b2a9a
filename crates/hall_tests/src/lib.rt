//! Tests of turns, ranks, posts, agents and halls: calls in a known order, closes, and threads that overlap. Clauses
//! say what each call may answer; here is that they answer what was worked out by hand, and that what threads were told
//! is true of the closed journal.
#![tactic(auto)]

#[cfg(test)]
mod agents;
#[cfg(test)]
mod begun;
#[cfg(test)]
mod calls;
#[cfg(test)]
mod closes;
#[cfg(test)]
mod example;
mod fault;
mod noted_calls;
#[cfg(test)]
mod orders;
#[cfg(test)]
mod posts;
#[cfg(test)]
mod ranks;
#[cfg(test)]
mod rows;
#[cfg(test)]
mod sinks;
#[cfg(test)]
mod threads;
mod told;
#[cfg(test)]
mod turns;
mod versions;
