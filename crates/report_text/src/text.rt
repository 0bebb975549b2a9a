//! A text that is written, or will be.
ghost use Rattle.std.specs.Prelude.{◌≡◌, ◌++◌, ◌∷◌, [], codes, map};
ghost use Rattle.coflow_units.specs.Text.{text_of};
ghost use Rattle.report_text.specs.Text.{run_line};

use coflow_units::Items;
use run_list::Runs;
use std::marker::Model;

/// A text: some bytes, and behind them, where it ends with a schedule, the lines of the runs and the last line. Those
/// lines are made when the text is written.
#[derive(Drop)]
pub struct Text {
    pub(crate) head: Items<u8>,
    pub(crate) runs: Option<Runs>,
}

impl Model for Text {
    ghost use Rattle.std.specs.Prelude.{◌++◌, List, ℕ};
    ghost use Rattle.report_text.specs.Text.{ending};

    ghost Value = { List ℕ };

    ghost view = { λ s. s.head ++ ending s.runs };
}

impl Text {
    /// The text that is these bytes.
    pub fn of_bytes(bytes: Vec<u8>) -> Text
        ensures { result ≡ bytes.items }
    {
        Text {
            head: Items::from_vec(bytes),
            runs: None,
        }
    }

    /// The text that begins with these bytes, and ends with the lines of the runs and the line `end`.
    pub fn with_runs(head: Vec<u8>, runs: Runs) -> Text
        ensures { result ≡ head.items ++ text_of (map run_line runs ++ (codes "end" ∷ [])) }
    {
        Text {
            head: Items::from_vec(head),
            runs: Some(runs),
        }
    }
}
