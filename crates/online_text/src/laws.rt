//! Laws of the texts of online runs.
ghost use Rattle.online_text.specs.Online.{HasSmallNumbers, IsOnline};
ghost use Rattle.online_text.specs.Reading.{GivesOnline, IsBadAt};
ghost use Rattle.online_text.specs.Text.{online_text};
ghost use Rattle.online_text.specs.declared.value.Online.{Online};
ghost use Rattle.report_text.specs.declared.fault.ReportFault.TheVariants.{BadText};
ghost use Rattle.std.specs.Prelude.{◌≡◌, Err, List, Ok, ℕ};

/// A text is that of one online run at most.
pub fn online_texts_are_one()
    ensures { (a b : Online) → IsOnline a → HasSmallNumbers a → IsOnline b → HasSmallNumbers b →
        online_text a ≡ online_text b → a ≡ b }
{}

/// A reader gives back the online run that was written, where there is memory.
pub fn written_is_read()
    ensures same { (written read : Online) → IsOnline written → HasSmallNumbers written →
        GivesOnline (online_text written) (Ok read) → read ≡ written }
    ensures taken { (written : Online) (line : ℕ) → IsOnline written → HasSmallNumbers written →
        GivesOnline (online_text written) (Err (BadText line)) → ⊥ }
{}

/// A text is refused at one line alone.
pub fn bad_line_is_one()
    ensures { (bytes : List ℕ) (a b : ℕ) → IsBadAt bytes a → IsBadAt bytes b → a ≡ b }
{}
