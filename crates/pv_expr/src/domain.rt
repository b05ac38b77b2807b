//! The domain of a variable, as it was written.

/// One end of a domain: a fraction in lowest terms, or an infinite end.
#[derive(Clone, Copy, Debug, PartialEq, Eq)]
pub enum Bound {
    MinusOo,
    /// `p/q`, where the absolute value of p is below 10^37 and q is from 1 to 10^36.
    Value { p: i128, q: u128 },
    PlusOo,
}

/// The numbers from `lo` to `hi`, both ends included.
#[derive(Clone, Copy, Debug, PartialEq, Eq)]
pub struct Domain {
    pub lo: Bound,
    pub hi: Bound,
}
