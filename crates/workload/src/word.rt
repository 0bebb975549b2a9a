//! The words of a script.
ghost use Rattle.std.specs.Prelude.{◌≡◌};
ghost use Rattle.workload.specs.Words.{end_of as end_of_text, runs_at, word_of as word_of_text};

/// What a command asks for.
#[derive(Clone, Copy, Debug, PartialEq, Eq)]
pub(crate) enum Word {
    Register,
    Withdraw,
    Publish,
    Pull,
    Reweigh,
}

/// How a round ends.
#[derive(Clone, Copy, Debug, PartialEq, Eq)]
pub(crate) enum End {
    /// Its commands run beside one run of slots.
    Slot,
    /// Its commands run without one.
    Wait,
}

impl End {
    /// Whether the commands of the round run beside slots.
    pub(crate) fn runs(self) -> bool
        ensures { result ≡ runs_at self }
    {
        match self {
            End::Slot => true,
            End::Wait => false,
        }
    }
}

/// The word that the field spells.
pub(crate) fn word_of(field: &[u8]) -> Option<Word>
    ensures { result ≡ word_of_text field.now }
{
    if field == b"register".as_slice() {
        return Some(Word::Register);
    }
    if field == b"withdraw".as_slice() {
        return Some(Word::Withdraw);
    }
    if field == b"publish".as_slice() {
        return Some(Word::Publish);
    }
    if field == b"pull".as_slice() {
        return Some(Word::Pull);
    }
    if field == b"reweigh".as_slice() {
        return Some(Word::Reweigh);
    }
    None
}

/// The end of a round that the field spells.
pub(crate) fn end_of(field: &[u8]) -> Option<End>
    ensures { result ≡ end_of_text field.now }
{
    if field == b"slot".as_slice() {
        return Some(End::Slot);
    }
    if field == b"wait".as_slice() {
        return Some(End::Wait);
    }
    None
}
