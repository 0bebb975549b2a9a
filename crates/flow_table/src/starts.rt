//! Where the flows of each coflow begin.
ghost use Rattle.std.specs.Prelude.{◌≡◌, ◌≢◌, ℕ, ◌+◌, ◌^◌, ◌<◌, ◌≤◌, All, IfOk, length, slice_index};
ghost use Rattle.coflow_units.specs.declared.limits.TheConstants.{MAX_FLOWS};
ghost use Rattle.std.specs.List.Sorted.{IsNonDecreasingBy};
ghost use Rattle.coflow_units.specs.declared.fabric.Flow.{Flow};
ghost use Rattle.coflow_units.specs.Flows.{coflow_of};
ghost use Rattle.coflow_units.specs.Starts.{IsStarts};

use coflow_units::Flow;
use std::alloc::{AllocError, Global};

/// The first flow of each coflow, and at the end the number of flows. The flows stand by coflow.
pub(crate) fn starts_of(alloc: Global, flows: &[Flow], coflows: u32) -> Result<Vec<u32>, AllocError>
    requires few { length flows.now ≤ MAX_FLOWS }
    requires ascending { IsNonDecreasingBy (λ (x : Flow). x.coflow) flows.now }
    requires within { All (λ (x : Flow). x.coflow < coflows) flows.now }
    ensures count { IfOk result (λ starts. length starts.items ≡ coflows + 1) }
    ensures starts { IfOk result (λ starts. IsStarts flows.now starts.items) }
    ensures rise { IfOk result (λ starts. (c : ℕ) → c < coflows →
        slice_index starts.items c ≤ slice_index starts.items (c + 1)) }
{
    let mut starts = Vec::new(alloc);
    let mut first = 0;
    for coflow in 0..coflows {
        starts.push(first as u32)?;
        first = end_of_coflow(flows, first, coflow);
    }
    starts.push(first as u32)?;
    Ok(starts)
}

/// The end of the flows of the coflow, of which the first one, if any, has this index.
fn end_of_coflow(flows: &[Flow], first: usize, coflow: u32) -> usize
    requires first_in { first ≤ length flows.now }
    ensures bound { (first ≤ result) × (result ≤ length flows.now) }
    ensures own { (f : ℕ) → first ≤ f → f < result → coflow_of flows.now f ≡ coflow }
    ensures last { result < length flows.now → coflow_of flows.now result ≢ coflow }
{
    let mut end = first;
    while end < flows.len() && flows[end].coflow == coflow {
        end += 1;
    }
    end
}
