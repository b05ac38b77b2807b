//! The program itself.

/// A contractor program. Constraints are numbered from 0.
#[derive(Drop)]
pub enum Program {
    /// HC4-revise of one constraint.
    Hc4(u32),
    /// Each part in order.
    Compose(Vec<Program>),
    /// The hull of the results that are not empty.
    Union(Vec<Program>),
    /// The least box that holds what lies in at least that number of the results.
    QInter(u32, Vec<Program>),
    /// Its part, repeated at most that number of times, until a turn changes nothing.
    Fix(u32, Box<Program>),
    /// All constraints in order, repeated at most that number of times, until a turn changes
    /// nothing.
    Prop(u32),
}

/// The longest text of a program, in bytes.
pub const MOST_PROGRAM_TEXT: usize = 4096;

/// The most nodes of a program.
pub const MOST_PROGRAMS: u32 = 256;

/// The most turns of a `fix` or a `prop`.
pub const MOST_TURNS: u32 = 64;
