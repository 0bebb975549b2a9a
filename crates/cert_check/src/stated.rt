//! Numbers that a report states of coflows, beside the real ones.
ghost use Rattle.std.specs.Prelude.{◌≡◌, ◌<◌, ◌≤◌, ◌⊎◌, All, IfOk, MatchOption, length, slice_index};
ghost use Rattle.report_text.specs.Report.{ForEach};
ghost use Rattle.cert_check.specs.Places.{ends_in};
ghost use Rattle.cert_check.specs.Stated.{AreReal, AreRealIfAny, IsLeastWrong, IsLeastWrongOfAny};

use coflow_units::{Items, NoMemory};
use report_text::PlaceLine;
use std::alloc::Global;

/// A number that a report states of a coflow, and the real one.
#[derive(Clone, Copy)]
pub(crate) struct Claim {
    pub(crate) coflow: u32,
    pub(crate) stated: u64,
    pub(crate) real: u64,
}

/// The wrong number of the least coflow. Each place has a coflow and states a number of it; the real numbers go by
/// coflow.
pub(crate) fn least_wrong(coflows: &[u32], stated: &[u64], real: &[u64]) -> Option<Claim>
    requires each { length stated.now ≡ length coflows.now }
    requires within { All (λ c. c < length real.now) coflows.now }
    ensures { MatchOption result (AreReal coflows.now stated.now (slice_index real.now))
        (λ w. IsLeastWrong coflows.now stated.now (slice_index real.now) w.coflow w.stated w.real) }
{
    let mut least: Option<Claim> = None;
    for place in 0..coflows.len() {
        let coflow = coflows[place];
        let claim = Claim {
            coflow,
            stated: stated[place],
            real: real[coflow as usize],
        };
        if claim.stated == claim.real {
            continue;
        }
        least = Some(of_lesser_coflow(least, claim));
    }
    least
}

/// The claim of the lesser coflow, where there is another one.
fn of_lesser_coflow(other: Option<Claim>, claim: Claim) -> Claim
    ensures within { result.coflow ≤ claim.coflow }
    ensures cases { MatchOption other (result ≡ claim) (λ before. (result.coflow ≤ before.coflow) ×
        ((result ≡ before) ⊎ (result ≡ claim))) }
{
    match other {
        Some(other) if other.coflow <= claim.coflow => other,
        _ => claim,
    }
}

/// The same of numbers that need not be stated.
pub(crate) fn least_wrong_if_any(
    coflows: &[u32],
    stated: &Option<Items<u64>>,
    real: &[u64],
) -> Option<Claim>
    requires each { ForEach (λ numbers. length numbers ≡ length coflows.now) stated.now }
    requires within { All (λ c. c < length real.now) coflows.now }
    ensures { MatchOption result (AreRealIfAny coflows.now stated.now (slice_index real.now))
        (λ w. IsLeastWrongOfAny coflows.now stated.now (slice_index real.now) w.coflow w.stated w.real) }
{
    match stated {
        Some(numbers) => least_wrong(coflows, numbers.as_slice(), real),
        None => None,
    }
}

/// The completions that the places state.
pub(crate) fn ends_of(alloc: Global, places: &[PlaceLine]) -> Result<Vec<u64>, NoMemory>
    ensures { IfOk result (λ ends. ends.items ≡ ends_in places.now) }
{
    let mut ends = Vec::new(alloc);
    for place in places {
        ends.push(place.done)?;
    }
    Ok(ends)
}
