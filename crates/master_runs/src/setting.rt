//! The limit of a journal and the weights of coflows, which the first line of a list says.
ghost use Rattle.std.specs.Prelude.{◌≡◌, ◌≤◌, All, IfOk, IfSome, vec_len};
ghost use Rattle.coflow_units.specs.declared.limits.TheConstants.{MAX_WEIGHT};

use crate::fault::ListFault;
use crate::line::{index, number};
use coflow_units::MAX_WEIGHT;
use std::alloc::Global;
use text_fields::Fields;

/// The greatest limit of a journal, in entries.
pub const MAX_LIMIT: u32 = 8_388_608;

/// The limit of a journal, and the weights of the coflows.
#[derive(Drop)]
pub struct Setting {
    pub limit: u32,
    pub weights: Vec<u64>,
}

/// The limit and so many weights, which come next in the first line. The error is the first of them that is wanting or
/// out of range, or want of memory.
pub fn setting_of(
    alloc: Global,
    coflows: u32,
    fields: &mut Fields<'_>,
) -> Result<Setting, ListFault>
    ensures limit { IfOk result (λ s. (1 ≤ s.limit) × (s.limit ≤ MAX_LIMIT)) }
    ensures count { IfOk result (λ s. vec_len s.weights ≡ coflows) }
    ensures weights { IfOk result (λ s. All (λ w. (1 ≤ w) × (w ≤ MAX_WEIGHT)) s.weights.items) }
{
    let Some(limit) = index(fields) else {
        return Err(ListFault::Line(1));
    };
    if limit < 1 {
        return Err(ListFault::Line(1));
    }
    if limit > MAX_LIMIT {
        return Err(ListFault::Line(1));
    }
    let weights = weights_of(alloc, coflows, fields)?;
    Ok(Setting { limit, weights })
}

/// So many weights, which come next.
fn weights_of(alloc: Global, coflows: u32, fields: &mut Fields<'_>) -> Result<Vec<u64>, ListFault>
    ensures len { IfOk result (λ weights. vec_len weights ≡ coflows) }
    ensures fit { IfOk result (λ weights. All (λ w. (1 ≤ w) × (w ≤ MAX_WEIGHT)) weights.items) }
{
    let mut weights = Vec::new(alloc);
    for coflow in 0..coflows {
        let Some(weight) = weight(fields) else {
            return Err(ListFault::Weight(coflow));
        };
        weights.push(weight)?;
    }
    Ok(weights)
}

/// The weight that comes next, from 1 to 2^32.
fn weight(fields: &mut Fields<'_>) -> Option<u64>
    ensures some { IfSome result (λ w. 1 ≤ w) }
    ensures most { IfSome result (λ w. w ≤ MAX_WEIGHT) }
{
    let weight = number(fields)?;
    if weight < 1 {
        return None;
    }
    if weight > MAX_WEIGHT {
        return None;
    }
    Some(weight)
}
