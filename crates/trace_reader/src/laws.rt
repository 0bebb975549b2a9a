//! Laws of a trace's text.
ghost use Rattle.std.specs.Prelude.{◌≡◌, None};
ghost use Rattle.coflow_units.specs.Trace.{IsTrace};
ghost use Rattle.text_fields.specs.Checks.{first_fault};
ghost use Rattle.text_fields.specs.Fields.{Text};
ghost use Rattle.text_fields.specs.Lines.{lines_of};
ghost use Rattle.trace_reader.specs.Trace.{fields_of, trace_checks, trace_of};

/// Two texts whose lines with fields have the same numbers and the same fields have the same checks, each with its
/// fault, and say the same. So the blanks between fields change nothing. A blank line is counted in the numbers of the
/// lines behind it, which stand in faults.
pub fn lines_decide()
    ensures checks { (a b : Text) → lines_of a ≡ lines_of b → trace_checks a ≡ trace_checks b }
    ensures trace { (a b : Text) → lines_of a ≡ lines_of b → trace_of a ≡ trace_of b }
{}

/// Of two texts whose lines with fields have the same fields, whatever their numbers, both are read or neither is, and
/// they say the same. So blank lines, wherever they are, change neither that a text is read nor what it says.
pub fn fields_decide()
    ensures read { (a b : Text) → fields_of a ≡ fields_of b → first_fault (trace_checks a) ≡ None →
        first_fault (trace_checks b) ≡ None }
    ensures trace { (a b : Text) → fields_of a ≡ fields_of b → trace_of a ≡ trace_of b }
{}

/// A text whose checks all hold says a trace within the limits.
pub fn accepted_is_trace()
    ensures { (text : Text) → first_fault (trace_checks text) ≡ None → IsTrace (trace_of text) }
{}
