//! What follows from how commands end.
#![tactic(auto)]

mod laws;

pub use laws::{
    campaigns, completed_alike, done, merges_alike, no_memory, not_written, open_left, others_stay,
    refused, right_is_answered, samples, shares_join, stored_is_wanted, words,
};
