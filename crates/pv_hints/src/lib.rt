//! The line that follows a refusal's on standard error, and says what is wrong and what to write.
#![tactic(auto)]

mod causes;
mod hint;
mod parts;
mod pavings;
mod place;
mod systems;
mod wish;
mod words;

pub use hint::tell_hint;
