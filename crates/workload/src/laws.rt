//! Laws of the made texts: they are always read. Each is a function without a body whose contract is the law.
ghost use Rattle.std.specs.Prelude.{◌≡◌, ◌≤◌, ◌^◌, ℕ, None, length};
ghost use Rattle.coflow_units.specs.declared.limits.TheConstants.{MAX_TEXT};
ghost use Rattle.coflow_units.specs.declared.quantity.Quantity.{Quantity};
ghost use Rattle.flow_table.specs.Causes.{HasCause};
ghost use Rattle.flow_table.specs.declared.fault.TableFault.TheVariants.{Limit};
ghost use Rattle.flow_table.specs.Units.{units_in_all};
ghost use Rattle.text_fields.specs.Checks.{first_fault};
ghost use Rattle.trace_reader.specs.Trace.{trace_checks, trace_of};
ghost use Rattle.weights.specs.Weights.{text_checks, weights_of};
ghost use Rattle.workload.specs.Coflows.{made_coflows};
ghost use Rattle.workload.specs.Made.{made_trace, made_weights};
ghost use Rattle.workload.specs.Text.{trace_text, weights_text};

/// The trace of each seed is read: it is not too long, all checks of a trace hold, and it says the coflows that were
/// drawn, for 150 ports.
pub fn made_trace_is_read()
    ensures short { (seed : ℕ) → length (trace_text (made_coflows seed)) ≤ MAX_TEXT }
    ensures reads { (seed : ℕ) → first_fault (trace_checks (trace_text (made_coflows seed))) ≡ None }
    ensures is { (seed : ℕ) → trace_of (trace_text (made_coflows seed)) ≡ made_trace seed }
{}

/// The weights of each seed are read beside the trace of that seed: the text is not too long, all checks of weights
/// hold, and each coflow has the weight that was drawn for it.
pub fn made_weights_are_read()
    ensures short { (seed : ℕ) → length (weights_text (made_coflows seed)) ≤ MAX_TEXT }
    ensures reads { (seed : ℕ) → first_fault
        (text_checks (weights_text (made_coflows seed)) (trace_of (trace_text (made_coflows seed))).coflows) ≡ None }
    ensures are { (seed : ℕ) → weights_of (weights_text (made_coflows seed))
        (trace_of (trace_text (made_coflows seed))).coflows ≡ made_weights seed }
{}

/// The trace of each seed fits a table of flows, whatever the unit in whole megabytes: neither its units nor its flows
/// are too many. Its 200 coflows have at most 8 reducers each, of at most 64 megabytes, so there are at most 102400
/// units.
pub fn made_flows_fit()
    ensures units { (seed unit : ℕ) → 1 ≤ unit →
        units_in_all (trace_of (trace_text (made_coflows seed))) unit ≤ 102400 }
    ensures fits { (seed unit : ℕ) (which : Quantity) (count : ℕ) → 1 ≤ unit →
        HasCause (trace_of (trace_text (made_coflows seed))) unit (Limit which count) → ⊥ }
{}
