//! What a line of a list says.
ghost use Rattle.std.specs.Prelude.{◌≡◌, OnOk, length};
ghost use Rattle.text_fields.specs.Fields.{field_at};
ghost use Rattle.text_fields.specs.Lines.{without_first};
ghost use Rattle.text_fields.specs.Numbers.{IsNumberOf};

use crate::fault::ListFault;
use master_core::Command;
use std::str;
use text_fields::{Fields, number_of};
use world_model::Event;

/// What a line of a list says.
#[derive(Clone, Copy)]
pub enum Said {
    /// To print what is told.
    Tell,
    /// To take this step. A command is that of a caller who asks it.
    Step(Event),
}

/// What the line says. The error is the number of a line that says nothing.
pub fn said_of(fields: &mut Fields<'_>) -> Result<Said, ListFault>
    ensures end { OnOk result (length fields.new.texts ≡ 0) }
{
    let line = fields.line();
    let said = said_first(fields);
    match said {
        Some(said) if fields.is_done() => Ok(said),
        _ => Err(ListFault::Line(line)),
    }
}

/// The word of the next field. It is empty where no field is left, or where it is not UTF-8.
pub fn word<'a>(fields: &mut Fields<'a>) -> &'a str
    ensures left { fields.new ≡ without_first fields.old }
{
    str::from_utf8(fields.next()).unwrap_or("")
}

/// The number of the next field. A greater one than 2^64 - 1 is read as that.
pub(crate) fn number(fields: &mut Fields<'_>) -> Option<u64>
    ensures number { IsNumberOf (field_at fields.old.texts 0) result }
    ensures left { fields.new ≡ without_first fields.old }
{
    number_of(fields.next())
}

/// The number of the next field, below 2^32.
pub fn index(fields: &mut Fields<'_>) -> Option<u32>
    ensures left { fields.new ≡ without_first fields.old }
{
    u32::try_from(number(fields)?).ok()
}

/// What the first fields of the line say.
fn said_first(fields: &mut Fields<'_>) -> Option<Said> {
    let first = fields.next();
    if let Some(who) = number_of(first) {
        return asked(who, fields);
    }
    match str::from_utf8(first).ok()? {
        "tell" => Some(Said::Tell),
        name => Some(Said::Step(event(name, fields)?)),
    }
}

/// The caller with this number asks the command that the next fields spell.
fn asked(who: u64, fields: &mut Fields<'_>) -> Option<Said> {
    let who = u32::try_from(who).ok()?;
    let command = command(fields)?;
    Some(Said::Step(Event::Ask { who, command }))
}

/// The command that the next fields spell.
fn command(fields: &mut Fields<'_>) -> Option<Command> {
    match word(fields) {
        "publish" => Some(Command::Publish),
        "close" => Some(Command::Close),
        "open" => Some(Command::Open(number(fields)?)),
        "skip" => Some(Command::Skip(number(fields)?)),
        name => command_of(name, index(fields)?, fields),
    }
}

/// The command with this name, of a coflow or of a port; the next field spells its other number.
fn command_of(name: &str, of: u32, fields: &mut Fields<'_>) -> Option<Command> {
    match name {
        "register" => Some(Command::Register(of)),
        "withdraw" => Some(Command::Withdraw(of)),
        "pull" => Some(Command::Pull(of)),
        "short" => Some(Command::Short(of, number(fields)?)),
        "reweigh" => Some(Command::Reweigh {
            coflow: of,
            weight: number(fields)?,
        }),
        _ => None,
    }
}

/// The step with this name, of an agent or of the driver of runs, whose numbers the next fields spell.
fn event(name: &str, fields: &mut Fields<'_>) -> Option<Event> {
    if name == "close" {
        return Some(Event::Close);
    }
    let first = index(fields)?;
    match name {
        "post" => Some(Event::Post { port: first }),
        "settle" => Some(Event::Settle { port: first }),
        "note" => Some(Event::Note { port: first }),
        _ => agents_event(name, first, index(fields)?, fields),
    }
}

/// The step of an agent at a port with this name; the next field spells its units.
fn agents_event(name: &str, agent: u32, port: u32, fields: &mut Fields<'_>) -> Option<Event> {
    match name {
        "draw" => Some(Event::Draw { agent, port }),
        "report" => Some(Event::Report { agent, port }),
        "send" => Some(Event::Send {
            agent,
            port,
            units: number(fields)?,
        }),
        _ => None,
    }
}
