//! Work that several workers do, and pavings by one and by several, by the plain settler. This
//! crate is tests alone.
#![tactic(auto)]

#[cfg(test)]
mod edges;
#[cfg(test)]
mod pavings;
#[cfg(test)]
mod pool;
