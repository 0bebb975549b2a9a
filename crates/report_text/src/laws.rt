//! Laws of the texts: of a report, of a comparison, of classes and of a summary.
ghost use Rattle.report_text.specs.Classed.{IsSmallClasses, class_text};
ghost use Rattle.report_text.specs.Compared.{IsSmallCompare, compare_text};
ghost use Rattle.report_text.specs.Made.{IsSmallMade, made_text};
ghost use Rattle.report_text.specs.Reading.{GivesReport, IsBadAt};
ghost use Rattle.report_text.specs.Report.{HasSmallNumbers, IsReport};
ghost use Rattle.report_text.specs.Text.{report_text};
ghost use Rattle.report_text.specs.declared.classed.ClassText.{ClassText};
ghost use Rattle.report_text.specs.declared.compared.Compare.{Compare};
ghost use Rattle.report_text.specs.declared.fault.ReportFault.TheVariants.{BadText};
ghost use Rattle.report_text.specs.declared.made.Made.{Made};
ghost use Rattle.report_text.specs.declared.value.Report.{Report};
ghost use Rattle.std.specs.Prelude.{◌≡◌, Err, List, Ok, ℕ};

/// A text is that of one report at most.
pub fn texts_are_one()
    ensures { (a b : Report) → IsReport a → HasSmallNumbers a → IsReport b → HasSmallNumbers b →
        report_text a ≡ report_text b → a ≡ b }
{}

/// A reader gives back the report that was written, where there is memory.
pub fn written_is_read()
    ensures same { (written read : Report) → IsReport written → HasSmallNumbers written →
        GivesReport (report_text written) (Ok read) → read ≡ written }
    ensures taken { (written : Report) (line : ℕ) → IsReport written → HasSmallNumbers written →
        GivesReport (report_text written) (Err (BadText line)) → ⊥ }
{}

/// A text is refused at one line alone.
pub fn bad_line_is_one()
    ensures { (bytes : List ℕ) (a b : ℕ) → IsBadAt bytes a → IsBadAt bytes b → a ≡ b }
{}

/// A text is the summary of one made workload at most.
pub fn summaries_are_one()
    ensures { (a b : Made) → IsSmallMade a → IsSmallMade b → made_text a ≡ made_text b → a ≡ b }
{}

/// A text is that of one comparison at most.
pub fn comparisons_are_one()
    ensures { (a b : Compare) → IsSmallCompare a → IsSmallCompare b → compare_text a ≡ compare_text b → a ≡ b }
{}

/// A text is that of one list of classes at most.
pub fn class_texts_are_one()
    ensures { (a b : ClassText) → IsSmallClasses a → IsSmallClasses b → class_text a ≡ class_text b → a ≡ b }
{}
