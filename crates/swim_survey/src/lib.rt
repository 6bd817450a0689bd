//! What `swim simulate` does: runs of a plan by seeds, what was measured in them as a table, as lines of files and as
//! pictures, sweeps over plans, and what shows most shortly how the law of a group is
//! broken.
#![tactic(auto)]

mod allowed;
mod asking;
mod broken;
mod fault;
mod figures;
mod files;
mod gathered;
mod pictures;
mod placing;
mod rows;
mod runs;
mod series;
mod shrink;
mod stage;
mod sweep;
mod sweeping;
mod table;

pub use allowed::Allowed;
pub use asking::{Asked, answer};
pub use broken::told;
pub use fault::AskedFault;
pub use files::Made;
pub use gathered::Gathered;
pub use pictures::{draw_runs, draw_sweep};
pub use placing::{PlacedRefusal, placed};
pub use runs::{Runs, run_all};
pub use series::Series;
pub use shrink::{Trial, shrunk, write_plan};
pub use stage::Stage;
pub use sweep::{Axis, Span, Sweep, numbers_of, read_span};
pub use sweeping::run_sweep;
pub use table::report;
