//! Tests of a runner, of rounds of a script, and of what `live` prints. Clauses say what each answer means; here is
//! that runs in small halls answer what was worked out by hand.
#![tactic(auto)]

#[cfg(test)]
mod begun;
#[cfg(test)]
mod masters;
#[cfg(test)]
mod rounds;
#[cfg(test)]
mod runs;
#[cfg(test)]
mod stage;
#[cfg(test)]
mod texts;
#[cfg(test)]
mod told;
