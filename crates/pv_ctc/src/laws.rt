//! What contraction and the sure test say of points, what is counted, and what the reader of texts
//! answers, as contracts.
ghost use Rattle.pv_ctc.specs.Members.{KeepsMembers, StaysWithin, SureOfMembers};
ghost use Rattle.pv_ctc.specs.Monotony.{KeepsSurePrograms};
ghost use Rattle.pv_ctc.specs.Beginnings.{FirstWrong};
ghost use Rattle.pv_ctc.specs.Refusals.{OneAnswer, OneSpelling};
ghost use Rattle.pv_ctc.specs.Revisions.{PassesOverAlike};

/// Contraction loses no member: each rational point of a box that is in the program's set lies in
/// what is left of the box, which is then not empty. It holds by its contract alone; the call does
/// nothing.
pub fn keeps_members()
    ensures { KeepsMembers }
{}

/// What contraction leaves of a box is a box in it. It holds by its contract alone; the call does
/// nothing.
pub fn stays_within()
    ensures { StaysWithin }
{}

/// Where a program is sure on a box, each rational point of the box is in the program's set. It
/// holds by its contract alone; the call does nothing.
pub fn sure_of_members()
    ensures { SureOfMembers }
{}

/// A program that is sure on a box is sure on each part of it. It holds by its contract alone; the
/// call does nothing.
pub fn sure_of_parts()
    ensures { KeepsSurePrograms }
{}

/// A text is the spelling of a program within the limits and refused nowhere, or it is the spelling
/// of none and refused at one byte. It holds by its contract alone; the call does nothing.
#[tactic(auto, using(crate::proofs::Derived::one_answer))]
pub fn one_answer()
    ensures { OneAnswer }
{}

/// No text is the spelling of two programs within the limits. It holds by its contract alone; the
/// call does nothing.
#[tactic(auto, using(crate::proofs::OneSpelling::one_spelling))]
pub fn one_spelling()
    ensures { OneSpelling }
{}

/// For a system of one constraint or more, a text of up to 4,096 bytes that is refused is refused
/// at the first token such that no program's text, of any number of programs, begins with the
/// tokens up to and with it, or that names the 257th program. The tokens before it name at most 256
/// programs. It holds by its contract alone; the call does nothing.
#[tactic(auto, using(crate::proofs::Closings::first_wrong))]
pub fn first_wrong()
    ensures { FirstWrong }
{}

/// A `prop` that revises only the constraints that are not clean leaves of a box what it leaves by
/// revising all of them; so the revisions that are counted are those of the contraction. It holds
/// by its contract alone; the call does nothing.
pub fn passes_over_alike()
    ensures { PassesOverAlike }
{}
