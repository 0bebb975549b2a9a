//! A plan as a picture: the bars of each port, which are the longest stretches of slots in which it serves one coflow,
//! and the curve of completed coflows.
#![tactic(auto)]

mod axes;
mod bars;
mod bars_text;
mod canvas;
mod curve;
mod curve_text;
pub mod laws;
mod layout;
mod legend;
mod log;
mod marks;
mod means;
mod number;
mod order;
mod palette;
mod policies;
mod policies_bars;
mod policies_curves;
mod policies_legend;
mod policies_value;
mod policies_writing;
mod row;
mod run;
mod run_curves;
mod run_title;
mod run_value;
mod run_writing;
mod ticks;
mod title;
mod value;
mod writing;

pub use bars::bars_of;
pub use curve::curve_of;
pub use order::places_of;
pub use policies::{policies_picture_of, policy_of};
pub use policies_value::{MAX_POLICIES, PoliciesPicture, Policy};
pub use policies_writing::write_policies;
pub use row::PortBars;
pub use run::run_picture_of;
pub use run_value::{RunCosts, RunPicture};
pub use run_writing::write_run_picture;
pub use value::{Bar, BarsFault, MAX_BARS, Picture, Span, Step, Window};
pub use writing::write_picture;
