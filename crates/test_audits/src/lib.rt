//! Tests of audits by several workers, by a plain settler.
#![tactic(auto)]

#[cfg(test)]
mod tests;
