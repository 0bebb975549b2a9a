//! What a turn is answered.
ghost use Rattle.std.specs.Prelude.{◌≡◌, Result, nat_lt};
ghost use Rattle.client_session.specs.Answers.{answer_of, makes_version};

use journal::Reply;

/// What a turn was answered: the position of its entry in the journal, counted from 1, the newest version after that
/// entry, and the master's reply.
#[derive(Clone, Copy, Debug, PartialEq, Eq)]
pub struct Receipt {
    pub position: u32,
    pub version: u32,
    pub reply: Reply,
}

/// The answer of a call that takes a turn.
#[derive(Clone, Copy, Debug, PartialEq, Eq)]
pub enum Answer {
    /// The turn added an entry.
    Done(Receipt),
    /// The journal had no room, and so many entries. Nothing was added, but a call is used up.
    Full(u32),
    /// Too few calls are left for the command, and no turn was taken. It is so where none is left, and for an opening
    /// of a run where fewer are left than the run may need.
    Spent,
}

impl Answer {
    /// The answer where a turn was taken: the receipt of its entry, or how many entries the journal has, which has no
    /// room.
    pub fn of_turn(turn: Result<Receipt, u32>) -> Answer
        ensures { result ≡ answer_of turn }
    {
        match turn {
            Ok(receipt) => Answer::Done(receipt),
            Err(entries) => Answer::Full(entries),
        }
    }
}

/// Whether a caller has fewer calls left than a command may need.
pub fn is_spent(left: u64, need: u64) -> bool
    ensures { result ≡ nat_lt left need }
{
    left < need
}

/// Whether the turn was answered by a version.
pub fn is_version(turn: &Result<Receipt, u32>) -> bool
    ensures { result ≡ makes_version turn.now }
{
    match turn {
        Ok(receipt) => match receipt.reply {
            Reply::Version(_) => true,
            _ => false,
        },
        Err(_) => false,
    }
}
