//! A command with its reply.
ghost use Rattle.std.specs.Prelude.{◌≡◌};
ghost use Rattle.live_text.specs.Readers.{IsDealOf};
ghost use Rattle.live_text.specs.Text.{mark};

use crate::fields::{field_then, mark_of};
use crate::replies::{closed, opened, published, pulled, registered, reweighed, withdrawn};
use crate::value::{Said, Word};
use coflow_units::{MAX_ID, MAX_WEIGHT};

/// The command and its reply whose words the bytes are. The fourth byte tells the command.
pub(crate) fn deal_of(bytes: &[u8]) -> Option<(Word, Said)>
    ensures { IsDealOf bytes.now result }
{
    match mark_of(bytes) {
        b'g' => register_of(bytes),
        b't' => withdraw_of(bytes),
        b'b' => publish_of(bytes),
        b'l' => pull_of(bytes),
        b'e' => open_of(bytes),
        b'o' => close_of(bytes),
        b'w' => reweigh_of(bytes),
        _ => None,
    }
}

/// A registering with its reply.
fn register_of(bytes: &[u8]) -> Option<(Word, Said)>
    requires { mark bytes.now ≡ 103 }
    ensures { IsDealOf bytes.now result }
{
    let Some((id, rest)) = field_then(bytes, b" register", 0, u64::from(MAX_ID)) else {
        return None;
    };
    let Some(said) = registered(rest) else {
        return None;
    };
    Some((Word::Register(id as u32), said))
}

/// A withdrawal with its reply.
fn withdraw_of(bytes: &[u8]) -> Option<(Word, Said)>
    requires { mark bytes.now ≡ 116 }
    ensures { IsDealOf bytes.now result }
{
    let Some((id, rest)) = field_then(bytes, b" withdraw", 0, u64::from(MAX_ID)) else {
        return None;
    };
    let Some(said) = withdrawn(rest) else {
        return None;
    };
    Some((Word::Withdraw(id as u32), said))
}

/// A publishing with its reply.
fn publish_of(bytes: &[u8]) -> Option<(Word, Said)>
    requires { mark bytes.now ≡ 98 }
    ensures { IsDealOf bytes.now result }
{
    let Some(rest) = bytes.strip_prefix(b" publish") else {
        return None;
    };
    let Some(said) = published(rest) else {
        return None;
    };
    Some((Word::Publish, said))
}

/// A pull with its reply.
fn pull_of(bytes: &[u8]) -> Option<(Word, Said)>
    requires { mark bytes.now ≡ 108 }
    ensures { IsDealOf bytes.now result }
{
    let Some((id, rest)) = field_then(bytes, b" pull", 0, u64::from(MAX_ID)) else {
        return None;
    };
    let Some(said) = pulled(rest) else {
        return None;
    };
    Some((Word::Pull(id as u32), said))
}

/// An opening with its reply.
fn open_of(bytes: &[u8]) -> Option<(Word, Said)>
    requires { mark bytes.now ≡ 101 }
    ensures { IsDealOf bytes.now result }
{
    let Some((most, rest)) = field_then(bytes, b" open", 1, u64::MAX) else {
        return None;
    };
    let Some(said) = opened(rest) else {
        return None;
    };
    Some((Word::Open(most), said))
}

/// A closing with its reply.
fn close_of(bytes: &[u8]) -> Option<(Word, Said)>
    requires { mark bytes.now ≡ 111 }
    ensures { IsDealOf bytes.now result }
{
    let Some(rest) = bytes.strip_prefix(b" close") else {
        return None;
    };
    let Some(said) = closed(rest) else {
        return None;
    };
    Some((Word::Close, said))
}

/// A reweighing with its reply.
fn reweigh_of(bytes: &[u8]) -> Option<(Word, Said)>
    requires { mark bytes.now ≡ 119 }
    ensures { IsDealOf bytes.now result }
{
    let Some((id, rest)) = field_then(bytes, b" reweigh", 0, u64::from(MAX_ID)) else {
        return None;
    };
    let Some((weight, rest)) = field_then(rest, b"", 1, MAX_WEIGHT) else {
        return None;
    };
    let Some(said) = reweighed(rest) else {
        return None;
    };
    Some((Word::Reweigh(id as u32, weight), said))
}
