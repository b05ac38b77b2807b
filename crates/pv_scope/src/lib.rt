//! Settling the open leaves of an opening within a scope: a share of them, or the shallow ones
//! first; and all of them in one order or another.
#![tactic(auto)]

mod leaves;
mod levels;
mod order;
mod part;
mod scope;
mod settling;
mod share;

pub use levels::{Levelled, settle_levels};
pub use order::{Order, pave_in_order};
pub use share::{MOST_SHARES, Share, Shared, settle_share};
