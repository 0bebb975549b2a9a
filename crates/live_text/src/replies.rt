//! The replies of each command.
ghost use Rattle.std.specs.Prelude.{◌≡◌, ℕ};
ghost use Rattle.live_text.specs.declared.value.Word.TheVariants.{Register, Withdraw, Publish, Pull, Open, Close, Reweigh};
ghost use Rattle.live_text.specs.Readers.{IsReplyTo};

use crate::fields::{field_then, last_of};
use crate::value::Said;
use coflow_units::{MAX_ID, MAX_WEIGHT};

/// The reply of a registering.
pub(crate) fn registered(bytes: &[u8]) -> Option<Said>
    ensures { (id : ℕ) → IsReplyTo (Register id) bytes.now result }
{
    if bytes == b" joined".as_slice() {
        return Some(Said::Joined);
    }
    if bytes == b" already".as_slice() {
        return Some(Said::Already);
    }
    None
}

/// The reply of a withdrawal.
pub(crate) fn withdrawn(bytes: &[u8]) -> Option<Said>
    ensures { (id : ℕ) → IsReplyTo (Withdraw id) bytes.now result }
{
    if bytes == b" left".as_slice() {
        return Some(Said::Left);
    }
    if bytes == b" nothere".as_slice() {
        return Some(Said::NotHere);
    }
    None
}

/// The reply of a publishing.
pub(crate) fn published(bytes: &[u8]) -> Option<Said>
    ensures { IsReplyTo Publish bytes.now result }
{
    if let Some(version) = last_of(bytes, b" version", 0, u64::from(MAX_ID)) {
        return Some(Said::Version(version as u32));
    }
    let Some(slot) = last_of(bytes, b" stillopen", 0, u64::MAX) else {
        return None;
    };
    Some(Said::StillOpen(slot))
}

/// The reply of a pull.
pub(crate) fn pulled(bytes: &[u8]) -> Option<Said>
    ensures { (id : ℕ) → IsReplyTo (Pull id) bytes.now result }
{
    if let Some(version) = last_of(bytes, b" unranked", 0, u64::from(MAX_ID)) {
        return Some(Said::Unranked(version as u32));
    }
    let Some((version, rest)) = field_then(bytes, b" rank", 0, u64::from(MAX_ID)) else {
        return None;
    };
    let Some(rank) = last_of(rest, b"", 0, u64::from(MAX_ID)) else {
        return None;
    };
    Some(Said::Rank(version as u32, rank as u32))
}

/// The reply of an opening.
pub(crate) fn opened(bytes: &[u8]) -> Option<Said>
    ensures { (most : ℕ) → IsReplyTo (Open most) bytes.now result }
{
    if bytes == b" nothing".as_slice() {
        return Some(Said::Nothing);
    }
    let Some((slot, rest)) = field_then(bytes, b" opened", 0, u64::MAX) else {
        return None;
    };
    let Some((slots, rest)) = field_then(rest, b"", 0, u64::MAX) else {
        return None;
    };
    let Some(count) = last_of(rest, b"", 0, u64::from(MAX_ID)) else {
        return None;
    };
    Some(Said::Opened(slot, slots, count as u32))
}

/// The reply of a closing.
pub(crate) fn closed(bytes: &[u8]) -> Option<Said>
    ensures { IsReplyTo Close bytes.now result }
{
    let Some(slot) = last_of(bytes, b" closed", 0, u64::MAX) else {
        return None;
    };
    Some(Said::Closed(slot))
}

/// The reply of a reweighing.
pub(crate) fn reweighed(bytes: &[u8]) -> Option<Said>
    ensures { (id weight : ℕ) → IsReplyTo (Reweigh id weight) bytes.now result }
{
    if bytes == b" nothere".as_slice() {
        return Some(Said::NotHere);
    }
    let Some(old) = last_of(bytes, b" weighed", 1, MAX_WEIGHT) else {
        return None;
    };
    Some(Said::Weighed(old))
}
