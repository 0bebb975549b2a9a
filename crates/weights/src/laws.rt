//! Laws of texts of weights.
ghost use Rattle.std.specs.Prelude.{◌≡◌, ◌≤◌, ◌^◌, All, List, None};
ghost use Rattle.coflow_units.specs.declared.limits.TheConstants.{MAX_WEIGHT};
ghost use Rattle.coflow_units.specs.declared.trace.CoflowLine.{CoflowLine};
ghost use Rattle.text_fields.specs.Checks.{first_fault};
ghost use Rattle.text_fields.specs.Fields.{Text};
ghost use Rattle.weights.specs.Weights.{text_checks, weights_of};

/// The weights that a text without a fault gives are from 1 to 2^32.
pub fn weights_are_in_range()
    ensures { (text : Text) (coflows : List CoflowLine) → first_fault (text_checks text coflows) ≡ None →
        All (λ w. (1 ≤ w) × (w ≤ MAX_WEIGHT)) (weights_of text coflows) }
{}
