//! Campaigns: pavings that are kept between rounds under a name.
//!
//! A keeper keeps an identity and rows for each name: a row is the path of a settled node and its
//! line. A campaign begins with what is kept, and each round saves the nodes that it settled.
//! Whatever rounds there were, and wherever one failed, what is kept is a stage of the opening.
#![tactic(auto)]

mod campaign;
mod frontier;
mod keeper;
mod kept_rows;
pub mod laws;
mod line;
mod mem_keeper;
mod new_rows;
mod order;
pub mod rebuild;
mod refusal;
mod row;

pub use campaign::Campaign;
pub use frontier::Frontier;
pub use keeper::{BeginRefused, KeepRefused, Keeper, LoadRefused};
pub use line::Line;
pub use mem_keeper::MemKeeper;
pub use refusal::{CampaignRefused, SaveRefused};
pub use row::{Row, RowRefused, Rows};
