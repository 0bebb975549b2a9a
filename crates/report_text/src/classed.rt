//! The text of the classes of a trace.
ghost use Rattle.std.specs.Prelude.{◌≡◌, ◌++◌, IfOk, OnOk, map};
ghost use Rattle.coflow_units.specs.Text.{ended, text_of};
ghost use Rattle.report_text.specs.Classed.{class_text, member_line};
ghost use Rattle.report_text.specs.declared.classed.Member.{Member};

use crate::numbers::{push_named, push_number};
use crate::text::Text;
use coflow_units::{Items, NoMemory};
use run_list::Runs;
use std::alloc::Global;

/// A coflow of a class, by its id. Classes count from 1.
#[derive(Clone, Copy, Debug, PartialEq, Eq)]
pub struct Member {
    pub class_number: u32,
    pub id: u32,
}

/// The coflows by class, what a schedule that keeps the classes costs at most, and the cost and the runs of the
/// schedule that serves them in this order.
#[derive(Drop)]
pub struct ClassText {
    pub members: Items<Member>,
    pub cap: u128,
    pub cost: u128,
    pub runs: Runs,
}

/// The text of classes.
///
/// Words are separated by one space, each line ends with one line feed, and numbers are decimal without leading zeros.
/// The lines are `sincronia classes 1`, for each member `member CLASS ID`, `cap C`, `cost C`, for each run `run LENGTH
/// FLOW FLOW ...`, and `end`. The lines of the runs and the last one are made when the text is written.
///
/// The error is want of memory.
pub fn write_classes(alloc: Global, classes: ClassText) -> Result<Text, NoMemory>
    ensures text { IfOk result (λ text. text ≡ class_text classes) }
{
    let mut head = Vec::new(alloc);
    head.extend_from_slice(b"sincronia classes 1\n")?;
    push_members(&mut head, classes.members.as_slice())?;
    push_named(&mut head, b"cap", classes.cap)?;
    push_named(&mut head, b"cost", classes.cost)?;
    Ok(Text::with_runs(head, classes.runs))
}

/// The lines of the members.
fn push_members(text: &mut Vec<u8>, members: &[Member]) -> Result<(), NoMemory>
    ensures { OnOk result (text.new.items ≡ text.old.items ++ text_of (map member_line members.now)) }
{
    for member in members {
        push_member(text, member)?;
    }
    Ok(())
}

/// The line of a member.
fn push_member(text: &mut Vec<u8>, member: &Member) -> Result<(), NoMemory>
    ensures { OnOk result (text.new.items ≡ text.old.items ++ ended (member_line member.now)) }
{
    text.extend_from_slice(b"member")?;
    push_number(text, u128::from(member.class_number))?;
    push_number(text, u128::from(member.id))?;
    text.extend_from_slice(b"\n")?;
    Ok(())
}
