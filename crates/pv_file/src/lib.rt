//! Paving files: the text of a paving in two versions, written and read.
//!
//! A file has a line for its version, one for the identity of what it is a paving of, and one for
//! each node in preorder. The root's box is not in it.
#![tactic(auto)]

mod cut;
mod header;
pub mod laws;
mod lines;
mod outcome_line;
mod reader;
mod refusal;
mod scribe;
mod version;
mod writer;

pub use header::hex_digits;
pub use lines::{write_node, write_outcome};
pub use outcome_line::read_outcome;
pub use pv_io::FileWriteRefused;
pub use reader::{NODE_BYTES, SPARE_BYTES, most_bytes, read, read_within};
pub use refusal::FileRefused;
pub use scribe::Scribe;
pub use version::Version;
pub use writer::{LONGEST_LINE, write, write_header, write_lines};
