//! What the commands' public calls promise, said once more of calls alone. The edits of must-fail/
//! turn these bodies.
#![tactic(auto)]

pub mod broken_off;
pub mod files;
pub mod kept;
pub mod settled;
