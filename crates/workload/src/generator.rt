//! The generator.
ghost use Rattle.std.specs.Prelude.{◌≡◌, IfOk};
ghost use Rattle.workload.specs.Coflows.{made_coflows};
ghost use Rattle.workload.specs.Text.{trace_text, weights_text};

use crate::drawing::draw_coflows;
use crate::writing::{write_trace, write_weights};
use coflow_units::{Items, NoMemory};
use std::alloc::Global;

/// The text of a made trace, and that of the weights of its coflows.
#[derive(Drop)]
pub struct Made0 {
    pub trace: Items<u8>,
    pub weights: Items<u8>,
}

/// Makes the trace and the weights of a seed: 200 coflows over 150 locations, from 0 to 149. A seed stands for one
/// trace and one list of weights.
///
/// Ids are from 1 to 200, in this order. Each coflow arrives from 0 to 99 milliseconds after the one before it, and the
/// first one so long after 0. It has from 1 to 8 mappers, from 1 to 8 reducers of 1 to 64 whole megabytes, and a weight
/// from 1 to 16. Locations may repeat.
///
/// All of it is drawn from one linear congruential generator of 64 bits, whose state is the seed: `x *
/// 6364136223846793005 + 1442695040888963407` is the next state, modulo 2^64, and a draw below m is the state without
/// its 33 low bits, modulo m. A coflow draws in turn: the growth of the arrival below 100; the number of mappers, less
/// 1, below 8; the location of each below 150; the number of reducers, less 1, below 8; for each reducer its location
/// below 150 and its megabytes, less 1, below 64; and the weight, less 1, below 16.
///
/// The trace has the line `150 200` and then for each coflow `ID ARRIVAL M MAPPER ... R LOCATION:MEGABYTES ...`; the
/// weights have for each coflow `ID WEIGHT`. One space stands between fields, and a line feed behind each line. The
/// only error is that no memory was to be had.
pub fn made(alloc: Global, seed: u64) -> Result<Made0, NoMemory>
    ensures trace { IfOk result (λ made. made.trace ≡ trace_text (made_coflows seed)) }
    ensures weights { IfOk result (λ made. made.weights ≡ weights_text (made_coflows seed)) }
{
    let coflows = draw_coflows(alloc, seed)?;
    let trace = write_trace(alloc, coflows.as_slice())?;
    let weights = write_weights(alloc, coflows.as_slice())?;
    Ok(Made0 {
        trace: Items::from_vec(trace),
        weights: Items::from_vec(weights),
    })
}
