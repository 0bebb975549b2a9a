//! Laws of what a command finds of its files.
ghost use Rattle.std.specs.Prelude.{◌≡◌, List};
ghost use Rattle.command_words.specs.Line.{Text};
ghost use Rattle.command_words.specs.Words.{Said};
ghost use Rattle.outside.specs.Shelf.{Told};
ghost use Rattle.rankers.specs.Meaning.{Meaning};
ghost use Rattle.command_files.specs.declared.status.Status.{Status};
ghost use Rattle.sincronia_cli.specs.Command.{IsOfFiles};
ghost use Rattle.sincronia_cli.specs.FirstCause.{IsFirstCause};

/// What the files of a command call for is one, for each bench: of its first fault, in the trace, the weights, the
/// table, and the report, the printed journal, the order or the script, and that they are good, at most one holds, with
/// one value. So where the files are told, `BadTrace`, `BadWeights`, `Limit`, `BadReport`, `BadScript` and `BadOrder`
/// come exactly where theirs is the first, unless a call fails or memory runs out before.
pub fn first_cause_is_one()
    ensures { (bench : List Meaning) (words : List Text) (said : Said) (t : Told) (a b : Status) →
        IsOfFiles words said → IsFirstCause bench said t a → IsFirstCause bench said t b → a ≡ b }
{}
