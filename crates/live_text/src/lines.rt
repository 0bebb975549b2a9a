//! What a line of a printed journal says.
ghost use Rattle.std.specs.Prelude.{◌≡◌, ◌↔◌, IfOk, IsTrue, codes};
ghost use Rattle.report_text.specs.Readers.{Stops};
ghost use Rattle.live_text.specs.Readers.{AreIdsOf, IsEntryOf, IsOrderOf, IsPullOf};

use crate::deals::deal_of;
use crate::fields::{field_then, last_of};
use crate::value::{EntryLine, MAX_ENTRIES, PullLine};
use coflow_units::{Items, MAX_CLIENTS, MAX_ID, NoMemory};
use report_text::count_then;
use std::alloc::Global;

/// Whether the line is the first one of a text.
pub(crate) fn is_first(line: &[u8]) -> bool
    ensures { IsTrue result ↔ (line.now ≡ codes "sincronia live 1") }
{
    line == b"sincronia live 1".as_slice()
}

/// The entry of the line of the entry at a position.
pub(crate) fn entry_of(line: &[u8], position: u64) -> Option<EntryLine>
    ensures { IsEntryOf position line.now result }
{
    let Some((read, rest)) = field_then(line, b"entry", 1, u64::from(MAX_ENTRIES)) else {
        return None;
    };
    if read != position {
        return None;
    }
    let Some((who, rest)) = field_then(rest, b"", 0, u64::from(MAX_CLIENTS)) else {
        return None;
    };
    let Some((word, said)) = deal_of(rest) else {
        return None;
    };
    Some(EntryLine {
        who: who as u32,
        word,
        said,
    })
}

/// The ids of the line of the order of a version. The error is want of memory.
pub(crate) fn order_of(
    alloc: Global,
    line: &[u8],
    version: u64,
) -> Result<Option<Items<u32>>, NoMemory>
    ensures { IfOk result (λ v. IsOrderOf version line.now v) }
{
    let Some((read, rest)) = field_then(line, b"order", 1, u64::from(MAX_ID)) else {
        return Ok(None);
    };
    if read != version {
        return Ok(None);
    }
    let Some(ids) = ids_of(alloc, rest)? else {
        return Ok(None);
    };
    Ok(Some(ids))
}

/// The ids that the bytes are, each behind a space. The error is want of memory.
fn ids_of(alloc: Global, bytes: &[u8]) -> Result<Option<Items<u32>>, NoMemory>
    requires { Stops bytes.now }
    ensures { IfOk result (λ v. AreIdsOf bytes.now v) }
{
    let mut ids = Vec::new(alloc);
    let mut rest = bytes;
    while !rest.is_empty() {
        let Some((id, behind)) = count_then(rest, u64::from(MAX_ID)) else {
            return Ok(None);
        };
        ids.push(id as u32)?;
        rest = behind;
    }
    Ok(Some(Items::from_vec(ids)))
}

/// The pull of the line.
pub(crate) fn pull_of(line: &[u8]) -> Option<PullLine>
    ensures { IsPullOf line.now result }
{
    let Some((client, rest)) = field_then(line, b"pull", 1, u64::from(MAX_CLIENTS)) else {
        return None;
    };
    let Some((number, rest)) = field_then(rest, b"", 0, u64::from(MAX_ID)) else {
        return None;
    };
    let Some((id, rest)) = field_then(rest, b"", 0, u64::from(MAX_ID)) else {
        return None;
    };
    let Some((version, rest)) = field_then(rest, b"", 0, u64::from(MAX_ID)) else {
        return None;
    };
    let Some(rank) = last_of(rest, b"", 0, u64::from(MAX_ID)) else {
        return None;
    };
    Some(PullLine {
        client: client as u32,
        line: number as u32,
        id: id as u32,
        version: version as u32,
        rank: rank as u32,
    })
}
