//! Centered forms of expressions by rational slopes, and a settler that uses them beside the
//! intervals of the sides.
//!
//! Where a variable stands several times in a constraint, each occurrence is taken by itself by
//! interval arithmetic: `x - x` on [0,1] is [-1,1]. The centered form of an expression on a box is
//! its interval at the centre, and for each variable a slope times how far the variable may be from
//! there: the slope of `x - x` is [0,0], and so is its centered form.
//!
//! Source: Krawczyk and Neumaier, "Interval slopes for rational functions and associated centered
//! forms", SIAM Journal on Numerical Analysis 22 (1985).
#![tactic(auto)]

mod centre;
mod columns;
mod form;
mod judging;
mod knowing;
pub mod laws;
mod passes;
mod room;
mod rows;
mod settler;
mod slopes;
mod step;
mod texts;
mod verdicts;

pub use form::{Form, FormSettler};
pub use room::Room;
pub use settler::CenteredSettler;
pub use slopes::Slopes;
