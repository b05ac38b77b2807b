//! Tests of settling within a scope, by a plain settler.
#![tactic(auto)]

#[cfg(test)]
mod tests;
