// Frames, what a node says at once on the bus, and their lines, which are what goes over the bus for them.
#![tactic(auto)]

mod done;
mod entries;
mod fields;
mod frame;
mod frames;
pub mod laws;
mod line;
mod lines;
mod maker;
mod refusal;
mod run;
mod shown;
pub mod widths;

pub use done::Done;
pub use entries::make_line;
pub use frame::{Frame, LARGEST_ID, MOST_BYTES};
pub use frames::is_same_frame;
pub use line::{LONGEST_LINE, Line};
pub use lines::is_same_line;
pub use maker::{END, START};
pub use refusal::Refusal;
pub use run::Run;
