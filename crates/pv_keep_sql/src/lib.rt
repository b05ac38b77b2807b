//! Campaigns kept in SQLite databases, one in each.
//!
//! A database has a strict table `head` with one row, the campaign's identity as bytes, and a
//! strict table `node` with the digits of each settled node's path, none for the root, and its
//! line. So the order of the text keys is preorder. No clause speaks of what a file holds: tests
//! show that these keepers keep what they are given. It is proved that each refusal is counted,
//! unless memory ran out.
#![tactic(auto)]

mod connection_keeper;
mod database;
mod faults;
mod file_keeper;
mod kept_path;
mod listing;
mod place;

pub use connection_keeper::ConnectionKeeper;
pub use file_keeper::FileKeeper;
