//! All lines of a text of weights.
ghost use Rattle.std.specs.Prelude.{◌≡◌, ◌≤◌, ◌^◌, ℕ, List, [], ◌∷◌, length, map};
ghost use Rattle.coflow_units.specs.declared.limits.TheConstants.{MAX_TEXT};
ghost use Rattle.text_fields.specs.Lines.{Line, lines_of};
ghost use Rattle.text_fields.specs.Numbers.{AreIds};
ghost use Rattle.weights.specs.Checks.{Answers, id_of, lines_checks, weight_in};

use crate::fault::WeightsFault;
use crate::line::line_of;
use indexmap::{IndexMap, IndexSet};
use std::alloc::Global;
use text_fields::Lines;

/// The weights that the lines give, by id, where the trace has the known ids.
pub(crate) fn given_weights(
    alloc: Global,
    bytes: &[u8],
    known: &IndexSet<u32>,
) -> Result<IndexMap<u32, u64>, WeightsFault>
    requires short { length bytes.now ≤ MAX_TEXT }
    requires ids { AreIds known.now.keys }
    ensures { Answers (lines_checks known.now.keys [] (lines_of bytes.now))
        (λ m. m.entries ≡ map (λ (x : Line). (id_of x, weight_in x)) (lines_of bytes.now)) result }
{
    let mut lines = Lines::new(bytes);
    let mut given = IndexMap::<u32, u64>::new(alloc);
    while let Some(mut fields) = lines.next() {
        let (id, weight) = line_of(&mut fields, known, &given)?;
        given.insert(id, weight)?;
    }
    Ok(given)
}
