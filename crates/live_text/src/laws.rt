//! Laws of the texts of printed journals.
ghost use Rattle.live_text.specs.Live.{IsLive};
ghost use Rattle.live_text.specs.Reading.{GivesLive};
ghost use Rattle.live_text.specs.Text.{live_text};
ghost use Rattle.live_text.specs.declared.value.Live.{Live};
ghost use Rattle.report_text.specs.declared.fault.ReportFault.TheVariants.{BadText};
ghost use Rattle.std.specs.Prelude.{◌≡◌, Err, Ok, ℕ};

/// A text is that of one printed journal at most.
pub fn live_texts_are_one()
    ensures { (a b : Live) → IsLive a → IsLive b → live_text a ≡ live_text b → a ≡ b }
{}

/// A reader gives back the printed journal that was written, where there is memory.
pub fn written_is_read()
    ensures same { (written read : Live) → IsLive written → GivesLive (live_text written) (Ok read) → read ≡ written }
    ensures taken { (written : Live) (line : ℕ) → IsLive written →
        GivesLive (live_text written) (Err (BadText line)) → ⊥ }
{}
