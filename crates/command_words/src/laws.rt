//! Laws of the definitions. Each is a function without a body whose contract is the law.
ghost use Rattle.std.specs.Prelude.{◌≡◌, List};
ghost use Rattle.command_words.specs.Line.{Text};
ghost use Rattle.command_words.specs.Words.{IsWords, Said};

/// Words say one thing at most.
pub fn words_are_one()
    ensures { (words : List Text) (a b : Said) → IsWords words a → IsWords words b → a ≡ b }
{}
