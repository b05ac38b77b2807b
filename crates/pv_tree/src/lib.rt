//! Pavings: trees of settled boxes over a root box, in an arena, and the trait of what settles a
//! box.
#![tactic(auto)]

mod arena;
mod batch;
mod cell;
mod grower;
mod growth;
mod intake;
mod knowing;
mod limit;
mod outcome;
mod path;
mod paving;
mod search;
mod settler;
mod steps;
mod stop;
mod walk;
mod workspace;

pub use batch::{Batch, MOST_BATCH};
pub use grower::Grower;
pub use growth::Growth;
pub use knowing::{Forgetful, KnowingSettler, Settled};
pub use limit::{LEAST_LIMIT, MOST_SETTLED, MOST_WORKERS, NodeLimit};
pub use outcome::{Counts, Outcome, Shape};
pub use path::{MOST_LEVELS, MOST_STEPS, Path};
pub use paving::{Paving, PutRefused};
pub use settler::{Settler, settle_at};
pub use walk::Walk;
pub use workspace::{Workspace, blank};
