//! The text of a printed journal, written.
ghost use Rattle.std.specs.Prelude.{◌≡◌, ◌++◌, IfOk, OnOk, map};
ghost use Rattle.coflow_units.specs.Text.{ended, spaced, text_of};
ghost use Rattle.live_text.specs.Text.{command_words, entry_line, live_text, numbered, order_line, pull_line, reply_words};

use crate::value::{EntryLine, Live, PullLine, Said, Word};
use coflow_units::{Items, NoMemory};
use report_text::{Text, push_flows, push_number};
use std::alloc::Global;

/// The text of a printed journal.
///
/// Words are separated by one space, each line ends with one line feed, and numbers are decimal without leading zeros.
/// The lines are `sincronia live 1`; for each entry `entry POSITION WHO COMMAND REPLY` with POSITION counting from 1;
/// for each order `order V ID ID ...` with V counting from 1; for each pull `pull K LINE ID VERSION RANK`; for each run
/// `run LENGTH FLOW FLOW ...`; and `end`. A command is `register ID`, `withdraw ID`, `publish`, `pull ID`, `open MOST`,
/// `close` or `reweigh ID WEIGHT`. A reply is `joined`, `already`, `left`, `nothere`, `version V`, `stillopen SLOT`,
/// `rank V R`, `unranked V`, `opened SLOT LENGTH COUNT`, `nothing`, `closed SLOT` or `weighed OLD`. The lines of the
/// runs and the last one are made when the text is written.
///
/// The error is want of memory.
pub fn write_live(alloc: Global, live: Live) -> Result<Text, NoMemory>
    ensures text { IfOk result (λ text. text ≡ live_text live) }
{
    let mut head = Vec::new(alloc);
    head.extend_from_slice(b"sincronia live 1\n")?;
    push_entries(&mut head, live.entries.as_slice())?;
    push_orders(&mut head, live.orders.as_slice())?;
    push_pulls(&mut head, live.pulls.as_slice())?;
    Ok(Text::with_runs(head, live.runs))
}

/// The lines of the entries.
fn push_entries(text: &mut Vec<u8>, entries: &[EntryLine]) -> Result<(), NoMemory>
    ensures { OnOk result (text.new.items ≡ text.old.items ++ text_of (numbered entry_line 1 entries.now)) }
{
    for index in 0..entries.len() {
        push_entry(text, index as u128 + 1, entries[index])?;
    }
    Ok(())
}

/// The line of the entry at a position, which counts from 1.
fn push_entry(text: &mut Vec<u8>, position: u128, entry: EntryLine) -> Result<(), NoMemory>
    ensures { OnOk result (text.new.items ≡ text.old.items ++ ended (entry_line position entry)) }
{
    push_pair(text, b"entry", position, u128::from(entry.who))?;
    push_command(text, entry.word)?;
    push_reply(text, entry.said)?;
    text.extend_from_slice(b"\n")?;
    Ok(())
}

/// The words of a command.
fn push_command(text: &mut Vec<u8>, word: Word) -> Result<(), NoMemory>
    ensures { OnOk result (text.new.items ≡ text.old.items ++ command_words word) }
{
    match word {
        Word::Register(id) => push_words(text, b" register", u64::from(id)),
        Word::Withdraw(id) => push_words(text, b" withdraw", u64::from(id)),
        Word::Publish => push_word(text, b" publish"),
        Word::Pull(id) => push_words(text, b" pull", u64::from(id)),
        Word::Open(most) => push_words(text, b" open", most),
        Word::Close => push_word(text, b" close"),
        Word::Reweigh(id, weight) => {
            push_pair(text, b" reweigh", u128::from(id), u128::from(weight))
        }
    }
}

/// The words of a reply.
fn push_reply(text: &mut Vec<u8>, said: Said) -> Result<(), NoMemory>
    ensures { OnOk result (text.new.items ≡ text.old.items ++ reply_words said) }
{
    match said {
        Said::Joined => push_word(text, b" joined"),
        Said::Already => push_word(text, b" already"),
        Said::Left => push_word(text, b" left"),
        Said::NotHere => push_word(text, b" nothere"),
        Said::Version(version) => push_words(text, b" version", u64::from(version)),
        Said::StillOpen(slot) => push_words(text, b" stillopen", slot),
        Said::Rank(version, rank) => {
            push_pair(text, b" rank", u128::from(version), u128::from(rank))
        }
        Said::Unranked(version) => push_words(text, b" unranked", u64::from(version)),
        Said::Opened(slot, slots, count) => {
            push_pair(text, b" opened", u128::from(slot), u128::from(slots))?;
            push_number(text, u128::from(count))
        }
        Said::Nothing => push_word(text, b" nothing"),
        Said::Closed(slot) => push_words(text, b" closed", slot),
        Said::Weighed(weight) => push_words(text, b" weighed", weight),
    }
}

/// Some bytes.
fn push_word(text: &mut Vec<u8>, word: &[u8]) -> Result<(), NoMemory>
    ensures { OnOk result (text.new.items ≡ text.old.items ++ word.now) }
{
    text.extend_from_slice(word)?;
    Ok(())
}

/// Some bytes, and two numbers, each behind a space.
fn push_pair(text: &mut Vec<u8>, word: &[u8], first: u128, second: u128) -> Result<(), NoMemory>
    ensures { OnOk result (text.new.items ≡ text.old.items ++ (word.now ++ spaced first ++ spaced second)) }
{
    text.extend_from_slice(word)?;
    push_number(text, first)?;
    push_number(text, second)
}

/// Some bytes, and a number behind a space.
fn push_words(text: &mut Vec<u8>, word: &[u8], number: u64) -> Result<(), NoMemory>
    ensures { OnOk result (text.new.items ≡ text.old.items ++ (word.now ++ spaced number)) }
{
    text.extend_from_slice(word)?;
    push_number(text, u128::from(number))
}

/// The lines of the orders.
fn push_orders(text: &mut Vec<u8>, orders: &[Items<u32>]) -> Result<(), NoMemory>
    ensures { OnOk result (text.new.items ≡ text.old.items ++ text_of (numbered order_line 1 orders.now)) }
{
    for index in 0..orders.len() {
        push_order(text, index as u128 + 1, orders[index].as_slice())?;
    }
    Ok(())
}

/// The line of the order of a version, which counts from 1.
fn push_order(text: &mut Vec<u8>, version: u128, ids: &[u32]) -> Result<(), NoMemory>
    ensures { OnOk result (text.new.items ≡ text.old.items ++ ended (order_line version ids.now)) }
{
    text.extend_from_slice(b"order")?;
    push_number(text, version)?;
    push_flows(text, ids)?;
    text.extend_from_slice(b"\n")?;
    Ok(())
}

/// The lines of the pulls.
fn push_pulls(text: &mut Vec<u8>, pulls: &[PullLine]) -> Result<(), NoMemory>
    ensures { OnOk result (text.new.items ≡ text.old.items ++ text_of (map pull_line pulls.now)) }
{
    for pull in pulls {
        push_pull(text, *pull)?;
    }
    Ok(())
}

/// The line of a pull.
fn push_pull(text: &mut Vec<u8>, pull: PullLine) -> Result<(), NoMemory>
    ensures { OnOk result (text.new.items ≡ text.old.items ++ ended (pull_line pull)) }
{
    push_pair(
        text,
        b"pull",
        u128::from(pull.client),
        u128::from(pull.line),
    )?;
    push_pair(text, b"", u128::from(pull.id), u128::from(pull.version))?;
    push_number(text, u128::from(pull.rank))?;
    push_word(text, b"\n")
}
