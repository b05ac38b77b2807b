//! Pictures of slices of pavings: which rectangles a plane of two variables shows, and their SVG
//! text.
//!
//! A slice leaves two variables free and gives each other one a number. A box is seen if these
//! numbers lie in its places. The rectangles come in preorder, and a later one is painted over the
//! earlier ones.
#![tactic(auto)]

pub mod laws;
mod picture;
mod pixel;
mod plane;
mod rectangle;
mod shown;
mod side;
mod slicing;
mod text;

pub use picture::Picture;
pub use pv_io::FileWriteRefused;
pub use rectangle::Class;
pub use slicing::slice;
