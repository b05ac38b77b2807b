//! The outside as two traits: a sink that takes bytes, and a folder of named files.
//!
//! Faults of the outside are counted: a call answers `Failed` only if the count rose in it. Sinks
//! and folders in memory show their contents and can be made to fail at chosen calls. The real ones
//! show no contents.
#![tactic(auto)]

mod folder;
mod handing_over;
mod mem_folder;
mod mem_sink;
mod plain_folder;
mod plain_sink;
mod real_folder;
mod real_sink;
mod refused;
mod replaced;
mod script;
mod sink;

pub use folder::{FetchRefused, Folder, StoreRefused};
pub use handing_over::{FileWriteRefused, PIECE, hand_over, hand_over_held, hand_over_piece};
pub use mem_folder::MemFolder;
pub use mem_sink::MemSink;
pub use plain_folder::PlainFolder;
pub use plain_sink::PlainSink;
pub use real_folder::{RealFolder, read_up_to};
pub use real_sink::{RealSink, takes_all};
pub use refused::IoRefused;
pub use script::Script;
pub use sink::{Sink, WriteRefused};
